//! The pages that are printed of the program itself: every command with an example, and the version.
ghost use Rattle.std.specs.Prelude.{◌≡◌, ◌++◌, IfOk, MatchResult};
ghost use Rattle.command_outcome.specs.declared.report.Kept.TheVariants.{Nothing};
ghost use Rattle.command_outcome.specs.declared.report.EarlyEnd.TheVariants.{Memory};
ghost use Rattle.command_outcome.specs.declared.status.Status.TheVariants as ends;
ghost use Rattle.line_run.specs.Pages.{help_text, page_text, version_text};

use command_outcome::{EarlyEnd, Report, Status};
use line_words::PageJob;
use std::alloc::{AllocError, Global};

/// How the program is called, and what its balance and its searches at a cycle time or for given stations give.
const PLANNING: &str = "line COMMAND NAMES KEY=VALUE ..    balances of assembly lines, with proof
balance FILE    a balance at once, a bound on its stations, the idle time
    cycle=C (the file's)  line=straight|u (straight)  apart=PAIRS (none)
    line balance jackson.in2 cycle=10
solve FILE    a balance of the fewest stations, and the proof that it is
    cycle=C (the file's)  line=straight|u (straight)  helpers=0..64 (4)
    units=1..3000000 (in turns)  cert=OUT (none)  apart=PAIRS (none)
    warm=CERT (none)  seek=0..3000000 (in turns)  bound=plain|pairs (pairs)
    line solve jackson.in2 cycle=10 cert=jackson.cert
cycle FILE stations=1..1024    the least cycle time, and the proof
    line=straight|u (straight)  helpers=0..64 (4)  units=1..1000000 (1000000)
    cert=OUT (none)  seek=0..3000000 (0)  bound=plain|pairs (pairs)
    line cycle jackson.in2 stations=5
";

/// What the least product and the tests of proofs give.
const PROOFS: &str = "effic FILE least=1..1024 most=1..1024    the least stations times cycle time
    line=straight|u (straight)  helpers=0..64 (4)  units=1..1000000 (1000000)
    cert=OUT (none)  seek=0..3000000 (0)  bound=plain|pairs (pairs)
    line effic jackson.in2 least=3 most=6 cert=jackson.product
check FILE CERT    whether a proof holds, and what it shows then
    steps=1..20000000 (20000000)  apart=PAIRS (none)
    line check jackson.in2 jackson.cert
effic-check FILE CERT steps=1..20000000 (20000000)    the same of effic
    line effic-check jackson.in2 jackson.product
";

/// What the commands for mixes of models give.
const MIXES: &str = "combine MIX OUT    the combined instance of a mix of models
    line combine models.csv all.in2
utility MIX CERT SEQ interval=I length=L    utility work of a sequence
    line utility models.csv all.cert day.txt interval=7 length=8
timeline MIX CERT SEQ interval=I length=L    the same, unit by unit, as CSV
    line timeline models.csv all.cert day.txt interval=7 length=8
timeline-draw MIX CERT SEQ OUT interval=I length=L    the same as a picture
    line timeline-draw models.csv all.cert day.txt day.svg interval=7 length=8
sequence MIX CERT interval=I length=L    the order of least utility work
    units=1..1000000 (1000000)  seek=0..3000000 (0)  out=OUT (none)
    line sequence models.csv all.cert interval=7 length=8 out=day.proof
sequence-check MIX CERT SEQ interval=I length=L    whether that proof holds
    steps=1..20000000 (20000000)
    line sequence-check models.csv all.cert day.proof interval=7 length=8
";

/// What the other commands give.
const OTHER: &str = "convert FILE OUT to=in2|alb|csv|cert cycle=C apart=PAIRS    in that form
    line convert jackson.in2 jackson.csv to=csv
try seed=S tasks=1..1024    a generated instance, solved and checked
    cycle=C (200)  line=straight|u (straight)  units=1..3000000 (1000000)
    line try seed=1 tasks=50
draw FILE CERT OUT apart=PAIRS    the balance of a proof as a picture, in SVG
    line draw jackson.in2 jackson.cert jackson.svg
plan FILE CERT apart=PAIRS    the same as a sheet: when each task is done
    line plan lamp.csv lamp.cert
--help, --version    this page, and the version

FILE has a line as CSV, IN2 or ALB, PAIRS lines i,j of tasks that may share no
station and then -1,-1. Times are whole numbers of one time unit.
";

/// The page with every command, its names, keys, defaults and an example.
fn help_page(alloc: Global) -> Result<Vec<u8>, AllocError>
    ensures { IfOk result (λ t. t.items ≡ help_text) }
{
    let mut text = String::new(alloc);
    text.push_str(PLANNING)?;
    text.push_str(PROOFS)?;
    text.push_str(MIXES)?;
    text.push_str(OTHER)?;
    Ok(text.into_bytes())
}

/// The name of the program and its version.
fn version_page(alloc: Global) -> Result<Vec<u8>, AllocError>
    ensures { IfOk result (λ t. t.items ≡ version_text) }
{
    Vec::from_slice(alloc, b"line 0.1.0\n")
}

/// The text of a page.
fn page_of(alloc: Global, page: &PageJob) -> Result<Vec<u8>, AllocError>
    ensures { IfOk result (λ t. t.items ≡ page_text page.now) }
{
    match page {
        PageJob::Help => help_page(alloc),
        PageJob::Version => version_page(alloc),
    }
}

/// The report that is a page.
pub fn page_report(alloc: Global, page: &PageJob) -> Result<Report, EarlyEnd>
    ensures status { IfOk result (λ r. r.status ≡ ends.Done) }
    ensures text { IfOk result (λ r. r.text.items ≡ page_text page.now) }
    ensures kept { IfOk result (λ r. r.kept ≡ Nothing) }
    ensures memory { MatchResult result (λ _. Unit {0}) (λ s. s ≡ Memory) }
{
    Ok(Report::told(Status::Done, page_of(alloc, page)?))
}
