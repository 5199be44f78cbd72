// Sittings from scripts, line by line. The answers were worked out by hand from the rules.
#![tactic(auto)]

#[cfg(test)]
mod files;
#[cfg(test)]
mod long;
#[cfg(test)]
mod table;
#[cfg(test)]
mod tools;

#[cfg(test)]
mod tests {
    use crate::table::{BAD_LINES, CUTS, FUSES, REFUSALS};
    use crate::tools::run_all;
    use desk::Desk;
    use images::QueuedImage;
    use layers::Mirror;
    use std::test::Fail;

    // One sitting, on two images of 32 sectors of zeros.
    #[test]
    fn a_sitting(rt: HostRuntime) -> Result<(), Fail> {
        let mut first = vec![in rt.alloc(); 0u8; 16384]?;
        let mut second = vec![in rt.alloc(); 0u8; 16384]?;
        let desk = Desk::new(Mirror::new(
            QueuedImage::new(rt.alloc(), first.as_mut_slice(), [None; 4])?,
            QueuedImage::new(rt.alloc(), second.as_mut_slice(), [None; 4])?,
        ));
        let desk = run_all(&rt, desk, &BAD_LINES)?;
        let desk = run_all(&rt, desk, &REFUSALS)?;
        let desk = run_all(&rt, desk, &CUTS)?;
        let _desk = run_all(&rt, desk, &FUSES)?;
        Ok(())
    }
}
