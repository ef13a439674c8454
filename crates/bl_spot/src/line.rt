//! A line of a file.
ghost use Rattle.std.specs.Prelude.{◌≡◌, option_map};
ghost use Rattle.bl_spot.specs.Parts as parts;

use crate::cut::{first_line, part};

/// The line of this number, counted from 1, without its line end. None where there are fewer lines.
pub fn line_at<'a>(bytes: &'a [u8], number: u32) -> Option<&'a [u8]>
    ensures { option_map (λ line. line.now) result ≡ parts.line_at bytes.now number }
{
    if number == 0 {
        return None;
    }
    let parted = part(bytes, number);
    if parted.rest.is_empty() {
        None
    } else {
        Some(first_line(parted.rest))
    }
}
