//! What holds of lines that come byte by byte. Each law is a function that does nothing: its contract is the law.
ghost use Rattle.std.specs.Prelude.{◌≡◌, ◌≢◌, ◌++◌, ◌∷◌, [], ℕ, List};
ghost use Rattle.topology.specs.Networks.{Network};
ghost use Rattle.serve_lines.specs.Lines.{kept_bytes, line_in, ended_lines, open_line};

/// A line end ends the open line, and the next one begins.
pub fn line_ends_end_lines()
    ensures ended { (bytes : List ℕ) → ended_lines (bytes ++ 10 ∷ [])
        ≡ ended_lines bytes ++ open_line bytes ∷ [] }
    ensures begun { (bytes : List ℕ) → open_line (bytes ++ 10 ∷ []) ≡ [] }
{}

/// Any other byte stands at the end of the open line.
pub fn bytes_lengthen_lines()
    ensures ended { (bytes : List ℕ) (b : ℕ) → b ≢ 10 → ended_lines (bytes ++ b ∷ [])
        ≡ ended_lines bytes }
    ensures longer { (bytes : List ℕ) (b : ℕ) → b ≢ 10 → open_line (bytes ++ b ∷ [])
        ≡ open_line bytes ++ b ∷ [] }
{}

/// What is kept of a line tells what the line asks for, and needs no more than itself and the next byte.
pub fn what_is_kept_tells()
    ensures told { (net : Network) (line : List ℕ) → line_in net (kept_bytes line)
        ≡ line_in net line }
    ensures next { (line : List ℕ) (b : ℕ) → kept_bytes (kept_bytes line ++ b ∷ [])
        ≡ kept_bytes (line ++ b ∷ []) }
{}
