//! What holds of the file by the rules themselves.

ghost use Rattle.std.specs.Prelude.{◌≤◌, ◌<◌, ℕ, length};
ghost use Rattle.load_gen.specs.Load.{load_file, most_requests, file_limit};

/// A file of at most so many connections has fewer than 12,000,000 bytes: each of them has at most 92.
pub fn loads_are_short()
    ensures { (n : ℕ) → n ≤ most_requests → length (load_file n) < file_limit }
{}
