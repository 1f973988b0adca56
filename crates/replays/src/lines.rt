// Inputs one after the other, each with its length in 4 bytes in front, with a line for each.
use line::input::four_in;
use line::stream::read_full;
use std::io;
use std::io::Read;

// One input; false at the end.
fn replay<R: Read>(rt: &impl Print, input: &mut R) -> io::Result<bool> {
    let mut head = [0u8; 4];
    if read_full(input, &mut head) < head.len() {
        return Ok(false);
    }
    let size = four_in(&head, 0, 0);
    let mut area = [0u8; 262190];
    let length = answer_lines::answer_input(input, size, &mut area);
    rt.write_all(&area[..length])?;
    Ok(true)
}

// All inputs.
pub(crate) fn replay_all<R: Read>(rt: &impl Print, input: &mut R) -> io::Result<()> {
    // A loop has to end, and a reader need not.
    for _ in 0..1000000 {
        if !replay(rt, input)? {
            break;
        }
    }
    Ok(())
}
