// Lines of text, one after another.
ghost use Rattle.std.specs.Prelude.{◌≡◌, ◌+◌, ◌≤◌, ◌++◌, length};
ghost use Rattle.text.specs.Lines.{line, plain};

use arrayvec::ArrayString;
use itoa::Buffer;

// Appends each number in decimal after its label, and then a newline.
// By pushes, since no clause says that `write!` returns `Ok` where there is room, and no text here may fail.
pub(crate) fn push_line<const ROOM: usize>(text: &mut ArrayString<ROOM>, parts: &[(&str, u64)])
    requires { length text.old.bytes + length (line (plain parts.now)) ≤ ROOM }
    ensures { text.new.bytes ≡ text.old.bytes ++ line (plain parts.now) }
{
    let mut digits = Buffer::new();
    for (label, number) in parts {
        text.push_str(label);
        text.push_str(digits.format(*number));
    }
    text.push_str("\n");
}
