//! What things cost.

ghost use Rattle.std.specs.Prelude.{◌≡◌};
ghost use Rattle.tcl_eval.specs.Costs.{answer_cost, bytes_cost, command_cost, result_cost, words_cost};

use outside::Answer;
use txt_core::{Text, Words};

/// So many whole bytes cost 1.
const BYTES_FOR_ONE: u128 = 1024;

/// What a turn of a loop costs.
pub const TURN_COST: u128 = 1;

/// What an evaluation of an expression costs.
pub const EVALUATION_COST: u128 = 1;

/// What so many bytes cost.
#[inline(always)]
fn bytes_cost(bytes: u128) -> u128
    ensures { result ≡ bytes_cost bytes }
{
    bytes / BYTES_FOR_ONE
}

/// What a command costs whose words have so many bytes.
#[inline(always)]
pub fn words_cost(bytes: u128) -> u128
    ensures { result ≡ words_cost bytes }
{
    1 + bytes_cost(bytes)
}

/// What a command costs.
pub fn command_cost(words: &Words) -> u128
    ensures { result ≡ command_cost words.now }
{
    let mut bytes = 0u128;
    for word in words.as_slice() {
        bytes += word.len() as u128;
    }
    words_cost(bytes)
}

/// What a result costs.
pub fn result_cost(text: &Text) -> u128
    ensures { result ≡ result_cost text.now }
{
    bytes_cost(text.len() as u128)
}

/// What an answer costs.
pub fn answer_cost(answer: &Answer) -> u128
    ensures { result ≡ answer_cost answer.now }
{
    let bytes = match answer {
        Answer::Said(text) | Answer::Failed(text) | Answer::Page(text) => text.len(),
        Answer::NoPage | Answer::PageFault => 0,
    };
    bytes_cost(bytes as u128)
}
