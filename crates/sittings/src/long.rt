// What takes many lines, or long ones.
#[cfg(test)]
mod tests {
    use crate::tools::{run, run_all};
    use desk::{Desk, next_line};
    use images::QueuedImage;
    use layers::Mirror;
    use std::alloc::{AllocError, Global};
    use std::test::Fail;

    // The text, and behind it another so many times.
    fn repeated(alloc: Global, text: &str, more: &str, count: usize) -> Result<String, AllocError> {
        let mut line = String::from_str(alloc, text)?;
        for _ in 0..count {
            line.push_str(more)?;
        }
        Ok(line)
    }

    // 31 sectors behind the header hold an opening, a begin and 29 blocks.
    #[test]
    fn a_full_device(rt: HostRuntime) -> Result<(), Fail> {
        let mut first = vec![in rt.alloc(); 0u8; 16384]?;
        let mut second = vec![in rt.alloc(); 0u8; 16384]?;
        let mut desk = Desk::new(Mirror::new(
            QueuedImage::new(rt.alloc(), first.as_mut_slice(), [None; 4])?,
            QueuedImage::new(rt.alloc(), second.as_mut_slice(), [None; 4])?,
        ));
        desk = run(&rt, desk, "format s 8000 1", "ok 32")?;
        desk = run(&rt, desk, "mount", "ok 0")?;
        desk = run(&rt, desk, "arm", "ok 2")?;
        desk = run(&rt, desk, "begin 1 0", "ok 1")?;
        for count in 1..30u8 {
            let line = format!(in rt.alloc(); "sound 1 {count}")?;
            let wanted = format!(in rt.alloc(); "ok {count}")?;
            desk = run(&rt, desk, &line, &wanted)?;
        }
        let _desk = run_all(
            &rt,
            desk,
            &[
                ("sound 1 0", "no 17"),
                ("sound 1", "no 16"),
                ("end 1", "no 17"),
                ("save", "ok"),
                ("cut", "cut"),
                ("mount", "ok 31"),
                ("arm", "no 17"),
                ("save", "ok"),
                (
                    "play 1",
                    "ok 29 1 2 3 4 5 6 7 8 9 10 11 12 13 14 15 16 17 18 19 20 21 22 23 24 25 26 27 28 29",
                ),
            ],
        )?;
        Ok(())
    }

    // On more than 129 sectors.
    #[test]
    fn many_takes(rt: HostRuntime) -> Result<(), Fail> {
        let mut first = vec![in rt.alloc(); 0u8; 71680]?;
        let mut second = vec![in rt.alloc(); 0u8; 71680]?;
        let mut desk = Desk::new(Mirror::new(
            QueuedImage::new(rt.alloc(), first.as_mut_slice(), [None; 4])?,
            QueuedImage::new(rt.alloc(), second.as_mut_slice(), [None; 4])?,
        ));
        desk = run(&rt, desk, "format s 8000 1", "ok 140")?;
        desk = run(&rt, desk, "mount", "ok 0")?;
        desk = run(&rt, desk, "arm", "ok 2")?;
        for take in 1..65u8 {
            let begun = format!(in rt.alloc(); "ok {take}")?;
            desk = run(&rt, desk, "begin 1 0", &begun)?;
            let end = format!(in rt.alloc(); "end {take}")?;
            desk = run(&rt, desk, &end, "ok 0")?;
        }
        let _desk = run_all(
            &rt,
            desk,
            &[
                ("begin 1 0", "no 14"),
                ("begin 1 1", "no 13"),
                ("withdraw 1", "ok 64"),
                ("begin 1 0", "no 14"),
                ("save", "ok"),
                ("cut", "cut"),
                ("mount", "ok 130"),
                ("arm", "ok 3"),
                ("begin 1 0", "no 14"),
            ],
        )?;
        Ok(())
    }

    // Blocks of up to 240 samples, lines of up to 2,048 bytes, and 512 samples played of 720.
    #[test]
    fn long_lines(rt: HostRuntime) -> Result<(), Fail> {
        let mut first = vec![in rt.alloc(); 0u8; 16384]?;
        let mut second = vec![in rt.alloc(); 0u8; 16384]?;
        let mut desk = Desk::new(Mirror::new(
            QueuedImage::new(rt.alloc(), first.as_mut_slice(), [None; 4])?,
            QueuedImage::new(rt.alloc(), second.as_mut_slice(), [None; 4])?,
        ));
        let longest = repeated(rt.alloc(), "cut 0007", " 255", 510)?;
        let longer = repeated(rt.alloc(), "cut 00007", " 255", 510)?;
        assert_eq!(rt; longest.len(), 2048);
        desk = run(&rt, desk, &longest, "cut")?;
        desk = run(&rt, desk, &longer, "bad")?;
        desk = run(&rt, desk, "format s 8000 1", "ok 32")?;
        desk = run(&rt, desk, "mount", "ok 0")?;
        desk = run(&rt, desk, "arm", "ok 2")?;
        desk = run(&rt, desk, "begin 1 0", "ok 1")?;
        let block = repeated(rt.alloc(), "sound 1", " -7", 240)?;
        let larger = format!(in rt.alloc(); "{block} 1")?;
        desk = run(&rt, desk, &larger, "no 16")?;
        desk = run(&rt, desk, &block, "ok 240")?;
        desk = run(&rt, desk, &block, "ok 480")?;
        desk = run(&rt, desk, &block, "ok 720")?;
        let played = repeated(rt.alloc(), "ok 512", " -7", 512)?;
        let _desk = run(&rt, desk, "play 1", &played)?;
        Ok(())
    }

    // The last line has no line feed, and the line before it is too long to be kept whole.
    #[test]
    fn lines_of_input(rt: HostRuntime) -> Result<(), Fail> {
        let text = repeated(rt.alloc(), "\nmount\r\n\n", "x", 3000)?;
        let text = format!(in rt.alloc(); "{text}\nlast")?;
        let mut input = text.as_bytes();
        let mut lengths = Vec::new(rt.alloc());
        for _ in 0..6 {
            let Some(line) = next_line(rt.alloc(), &mut input)? else {
                break;
            };
            lengths.push(line.len())?;
        }
        assert_eq!(rt; lengths.as_slice(), [0, 6, 0, 2049, 4].as_slice());
        Ok(())
    }

    // A line too long to be kept whole is one line, an empty one is bad, and the last one has no line feed.
    #[test]
    fn a_script(rt: HostRuntime) -> Result<(), Fail> {
        let mut first = vec![in rt.alloc(); 0u8; 16384]?;
        let mut second = vec![in rt.alloc(); 0u8; 16384]?;
        let desk = Desk::new(Mirror::new(
            QueuedImage::new(rt.alloc(), first.as_mut_slice(), [None; 4])?,
            QueuedImage::new(rt.alloc(), second.as_mut_slice(), [None; 4])?,
        ));
        let script = repeated(rt.alloc(), "format s 8000 1\nmount\n\ncut", " 255", 600)?;
        let script = format!(in rt.alloc(); "{script}\nmount\nplay 1\nbegin 1\narm")?;
        let mut output = Vec::new(rt.alloc());
        desk.answer_all(rt.alloc(), &mut script.as_bytes(), &mut output)?;
        let wanted = "ok 32\nok 0\nbad\nbad\nno 2\nok 0\nbad\nok 2\n";
        assert!(rt; output.as_slice() == wanted.as_bytes());
        Ok(())
    }
}
