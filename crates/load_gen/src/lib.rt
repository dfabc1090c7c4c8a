//! A large rehearsal file that is made from a number: four workers get connections one after the other,
//! while all take steps in turn.
#![tactic(auto)]

ghost use Rattle.std.specs.Prelude.{◌≡◌, ◌<◌, ◌≤◌, ◌+◌, ◌++◌, ℕ, length, IfOk, OnOk, decimal};
ghost use Rattle.load_gen.specs.Targets.{written};
ghost use Rattle.load_gen.specs.Load.{next, choice, target_of, get_of, round, rounds, load_file, most_requests, file_limit};

mod law;
mod pieces;

pub use law::loads_are_short;
pub use pieces::Pieces;
use std::alloc::Global;
use txt_core::{NoMemory, Text, write_natural};

/// The most connections of a file.
pub const MOST_REQUESTS: u32 = 100_000;

/// How many workers there are.
const WORKERS: u64 = 4;

/// The number that follows another one is it times the first of these, plus the second, modulo the third.
const FACTOR: u64 = 1_103_515_245;

const SUMMAND: u64 = 12_345;

const MODULUS: u64 = 2_147_483_648;

/// The events in front: four workers, and two procedures with their URLs.
const FRONT: &[u8] =
    b"workers 4\ndefine 174\nproc hit {} {ns_return 200 text/plain [nsv_incr c n]}\nproc form {} {ns_return 200 text/plain [ns_queryget name]}\nns_register_proc GET /hit hit\nns_register_proc GET /form form\n";

/// The events at the end: each worker ends what it has.
const BACK: &[u8] = b"run 0\nrun 1\nrun 2\nrun 3\n";

/// What a request asks for.
#[derive(Clone, Copy, Debug, PartialEq, Eq)]
enum Target {
    /// A procedure that counts.
    Hit,
    /// A procedure that tells its query.
    Form,
    /// Nothing that there is.
    Miss,
}

/// The number that follows another one.
fn next(x: u64) -> u64
    requires { x < 2147483648 }
    ensures next { result ≡ next x }
    ensures below { result < 2147483648 }
{
    (x * FACTOR + SUMMAND) % MODULUS
}

/// What is asked for by a number that was drawn.
fn drawn(x: u64) -> Target
    ensures { (k : ℕ) → target_of (choice x) k ≡ written result k }
{
    match (x / WORKERS) % 3 {
        0 => Target::Hit,
        1 => Target::Form,
        _ => Target::Miss,
    }
}

/// The input of the k-th connection, by the number that was drawn for it.
fn input(alloc: Global, x: u64, k: u32) -> Result<Text, NoMemory>
    ensures { IfOk result (λ input. input ≡ get_of (target_of (choice x) k)) }
{
    let mut input = Text::new(alloc, b"GET ")?;
    match drawn(x) {
        Target::Hit => input.append(b"/hit")?,
        Target::Form => {
            input.append(b"/form?name=n")?;
            push_number(alloc, &mut input, u64::from(k))?;
        }
        Target::Miss => input.append(b"/miss")?,
    }
    input.append(b" HTTP/1.1\r\nHost: l\r\n\r\n")?;
    Ok(input)
}

/// Appends the digits of a number.
fn push_number(alloc: Global, text: &mut Text, number: u64) -> Result<(), NoMemory>
    ensures { OnOk result (text.new ≡ text.old ++ decimal number) }
{
    text.append(write_natural(alloc, number)?.bytes())
}

/// Appends the events of the k-th connection, by the number that was drawn for it.
fn push_round(alloc: Global, file: &mut Text, x: u64, k: u32) -> Result<(), NoMemory>
    ensures { OnOk result (file.new ≡ file.old ++ round x k) }
{
    let input = input(alloc, x, k)?;
    let number = x % WORKERS;
    file.append(b"run ")?;
    push_number(alloc, file, number)?;
    file.append(b"\nconnect ")?;
    push_number(alloc, file, number)?;
    file.append(b" ")?;
    push_number(alloc, file, input.len() as u64)?;
    file.append(b"\n")?;
    file.append(input.bytes())?;
    file.append(b"\nstep 0\nstep 1\nstep 2\nstep 3\n")
}

/// Appends the events of so many connections, the first of which is the k-th, behind the number that was
/// drawn last, and gives the number that is drawn last then. The only error is want of memory.
fn push_rounds(
    alloc: Global,
    file: &mut Text,
    drawn: u64,
    first: u32,
    count: u32,
) -> Result<u64, NoMemory>
    requires below { drawn < 2147483648 }
    requires few { first + count ≤ most_requests + 1 }
    ensures below { IfOk result (λ last. last < 2147483648) }
    ensures rounds { (more : ℕ)
        → IfOk result (λ last.
        file.new ++ rounds more (first + count) last
        ≡ file.old ++ rounds (count + more) first drawn) }
{
    let mut x = drawn;
    for k in first..first + count {
        x = next(x);
        push_round(alloc, file, x, k)?;
    }
    Ok(x)
}

/// A rehearsal file of so many connections, from 1 to 100,000. It has fewer than 12,000,000 bytes. The
/// only error is want of memory.
pub fn load(alloc: Global, n: u32) -> Result<Text, NoMemory>
    requires some { 1 ≤ n }
    requires most { n ≤ most_requests }
    ensures file { IfOk result (λ file. file ≡ load_file n) }
    ensures short { IfOk result (λ file. length file < file_limit) }
{
    let mut file = Text::new(alloc, FRONT)?;
    push_rounds(alloc, &mut file, u64::from(n), 1, n)?;
    file.append(BACK)?;
    Ok(file)
}
