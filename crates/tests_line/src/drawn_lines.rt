//! Lines of four seeds, as a model in another language gives them: PCG's XSH RR 64/32, begun with the 16 bytes that the
//! crate rand makes of a number. Two of the seeds differ in their highest bit alone.
use in2_reader::write_in2;
use line_generator::{Generated, generate};
use std::alloc::Global;
use std::test::Fail;

/// Whether the line of a seed has this text.
fn is_drawn(alloc: Global, seed: u64, tasks: u32, text: &str) -> Result<bool, Fail> {
    if tasks < 1 || tasks > 1024 {
        return Ok(false);
    }
    let Generated::Good(line) = generate(alloc, seed, tasks) else {
        return Ok(false);
    };
    let written = write_in2(alloc, &line)?;
    Ok(written.as_slice() == text.as_bytes())
}

#[test]
fn draws_the_lines_of_the_model(rt: HostRuntime) -> Result<(), Fail> {
    let rows = [
        (7, 2, "2\n38\n7\n-1,-1\n"),
        (
            1,
            12,
            "12\n75\n15\n85\n81\n13\n37\n37\n51\n9\n64\n6\n44\n1,4\n3,5\n8,9\n9,11\n-1,-1\n",
        ),
        (
            9223372036854775813,
            6,
            "6\n47\n24\n30\n57\n44\n54\n2,3\n2,4\n4,5\n-1,-1\n",
        ),
        (5, 6, "6\n43\n13\n64\n40\n42\n65\n1,3\n3,4\n5,6\n-1,-1\n"),
    ];
    for (seed, tasks, text) in rows {
        assert!(rt; is_drawn(rt.alloc(), seed, tasks, text)?, "seed {seed}");
    }
    Ok(())
}

#[test]
fn draws_two_tasks_that_fit_200_and_1024_tasks(rt: HostRuntime) -> Result<(), Fail> {
    let Generated::Good(two) = generate(rt.alloc(), 7, 2) else {
        return Err("no line")?;
    };
    let Generated::Good(most) = generate(rt.alloc(), 7, 1024) else {
        return Err("no line")?;
    };
    assert!(rt; (two.sum(&two.all()) <= 200) & (most.tasks() == 1024));
    Ok(())
}
