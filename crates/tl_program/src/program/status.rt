//! The line of each status.
ghost use Rattle.std.specs.Prelude.{◌≡◌};
ghost use Rattle.tl_program.specs.Status.{line_of};

/// The line of a status, without its line feed. It is empty for 0 and past 4.
pub fn line(status: u8) -> &'static str
    ensures { result.now ≡ line_of status }
{
    match status {
        1 => "tlq: refused",
        2 => "tlq: not understood",
        3 => "tlq: out of memory",
        4 => "tlq: read or write failed",
        _ => "",
    }
}
