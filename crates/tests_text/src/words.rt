//! Words, and the values of their job, of which no output shows all.
use line_words::{BoundWord, Job, JobRead, LineWord, SearchJob, job_of};
use std::alloc::{AllocError, Global};
use std::test::Fail;

/// The words of a text.
fn words_of(alloc: Global, text: &str) -> Result<Vec<String>, AllocError> {
    let mut words = Vec::new(alloc);
    for word in text.split(' ') {
        words.push(String::from_str(alloc, word)?)?;
    }
    Ok(words)
}

/// Whether the job is to solve a line, with these values.
fn is_solve(job: &Job) -> bool {
    let Job::Search(SearchJob::Solve(job)) = job else {
        return false;
    };
    let names = job.file.text() == "a.in2"
        && job.cert.as_ref().is_some_and(|cert| cert.text() == "c");
    let numbers = job.cycle == Some(7) && job.helpers == 4 && job.units.is_none();
    let old = job.warm.as_ref().is_some_and(|warm| warm.text() == "w");
    let asks = job.bound == BoundWord::Plain && job.seek == Some(5);
    names && numbers && old && asks && job.line == LineWord::U && job.apart.is_none()
}

#[test]
fn jobs_have_their_values(rt: HostRuntime) -> Result<(), Fail> {
    let words = words_of(
        rt.alloc(),
        "solve cycle=7 a.in2 line=u cert=c warm=w seek=5 bound=plain",
    )?;
    let right = match job_of(rt.alloc(), &words) {
        JobRead::Good(job) => is_solve(&job),
        _ => false,
    };
    assert!(rt; right);
    Ok(())
}
