//! The lines of a text: which are comments.
ghost use Rattle.std.specs.Prelude.{◌≡◌};
ghost use Rattle.net_base.specs.Lines as lines;

/// Whether a line is a comment: empty, or `#` and what follows.
pub fn is_comment(line: &[u8]) -> bool
    ensures { result ≡ lines.is_comment line.now }
{
    match line {
        [] => true,
        [first, ..] => *first == b'#',
    }
}
