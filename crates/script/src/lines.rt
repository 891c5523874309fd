// The lines of a script.
ghost use Rattle.std.specs.Prelude.{◌≡◌, List, [], ◌∷◌, ◌==◌, MatchOption, position};
ghost use Rattle.script.specs.Lines.{lines_of, line_length};

// What is left to read of a script.
#[derive(Clone, Copy)]
pub(crate) struct Lines<'a> {
    left: &'a [u8],
}

// Where the first line ends in a byte 0A.
fn line_end(text: &[u8]) -> Option<usize>
    ensures { result ≡ position (λ b. b == 0x0A) text.now }
{
    text.iter().position(|byte| *byte == b'\n')
}

// How long the first line is: up to a byte 0A, or to the end.
fn line_length(text: &[u8]) -> usize
    ensures { result ≡ line_length text.now }
{
    line_end(text).unwrap_or(text.len())
}

impl<'a> Lines<'a> {
    pub(crate) fn new(script: &'a [u8]) -> Lines<'a>
        ensures { result.left.now ≡ script.now }
    {
        Lines { left: script }
    }

    // Takes the next line off.
    pub(crate) fn take_line(&mut self) -> Option<&'a [u8]>
        ensures { MatchOption result ((lines_of self.old.left.now ≡ []) × (self.new ≡ self.old)) (λ line. lines_of self.old.left.now ≡ line.now ∷ lines_of self.new.left.now) }
    {
        if self.left.is_empty() {
            return None;
        }
        let script = self.left;
        let end = line_length(script);
        self.left = if end < script.len() {
            &script[end + 1..]
        } else {
            &[]
        };
        Some(&script[0..end])
    }
}
