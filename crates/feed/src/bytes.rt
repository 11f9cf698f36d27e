// The file of a case. It opens with its form: 0 has every byte, 1 is the start of the room that was lent last, with changes.
use crate::input::{Place, store};
use parts::front_to_fill;

// The bytes that stand at a place, and zeros past their end.
fn copy(from: &[u8], file: &mut [u8]) {
    let count = from.len().min(file.len());
    file[..count].copy_from_slice(&from[..count]);
    file[count..].fill(0);
}

// The changes, in their order.
fn change(at: Place, file: &mut [u8]) {
    let mut place = at.on(2);
    for _ in 0..at.two() {
        store(file, place.four() as usize, place.on(4).byte());
        place = place.on(5);
    }
}

// The file that stands at a place; `latest` is the room that was lent last.
pub fn file<'a>(at: Place, latest: &[u8], buffer: &'a mut [u8]) -> &'a [u8] {
    let file = front_to_fill(buffer, at.on(1).four() as usize);
    let content = at.on(5);
    if at.byte() == 0 {
        copy(content.0, file);
    } else {
        copy(latest, file);
        change(content, file);
    }
    file
}
