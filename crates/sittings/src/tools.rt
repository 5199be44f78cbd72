// How a script is run.
use desk::Desk;
use device::CuttableDevice;
use std::process::Abort;
use std::test::Fail;

// Runs a line, which gives the answer that is wanted.
pub fn run<D: CuttableDevice + Drop>(
    rt: &(impl Abort + AllocGlobal),
    desk: Desk<D>,
    line: &str,
    wanted: &str,
) -> Result<Desk<D>, Fail> {
    let (desk, answer) = desk.answer(rt.alloc(), line.as_bytes())?;
    let told = format!(in rt.alloc(); "{answer}")?;
    assert_eq!(rt; told.as_str(), wanted, "at {line}");
    Ok(desk)
}

// Runs lines, each of which gives its answer.
pub fn run_all<D: CuttableDevice + Drop>(
    rt: &(impl Abort + AllocGlobal),
    desk: Desk<D>,
    steps: &[(&str, &str)],
) -> Result<Desk<D>, Fail> {
    let mut desk = desk;
    for (line, wanted) in steps {
        desk = run(rt, desk, line, wanted)?;
    }
    Ok(desk)
}
