// Runs a sitting from a script: a line of the input gives a line of the output.
#![tactic(auto)]

use desk::Desk;
use images::QueuedImage;
use layers::Mirror;
use std::io;
use std::io::BufReader;

// The bytes of an image: 32 sectors.
const IMAGE_BYTES: usize = 32 * 512;

fn main(rt: HostRuntime) -> io::Result<()> {
    let mut first = vec![in rt.alloc(); 0u8; IMAGE_BYTES]?;
    let mut second = vec![in rt.alloc(); 0u8; IMAGE_BYTES]?;
    let desk = Desk::new(Mirror::new(
        QueuedImage::new(rt.alloc(), first.as_mut_slice(), [None; 4])?,
        QueuedImage::new(rt.alloc(), second.as_mut_slice(), [None; 4])?,
    ));
    let mut input = BufReader::new(rt.alloc(), rt.reader())?;
    desk.answer_all(rt.alloc(), &mut input, &mut io::writer(&rt))
}
