// Checking and listing a value by a plan.
#![tactic(auto)]

ghost use Rattle.std.specs.Prelude.{◌≡◌, true, ◌*◌, ◌≤◌, length};
ghost use Rattle.c_run.specs.Runs.{Roomy};
ghost use Rattle.protocol.specs.Running.{run_of};
ghost use Rattle.protocol.specs.Crossing.{crosses, word_room, SettlesRun, RunsValue};

use forms::Answer;
use forms::fault::Fault;

// A value of at most this many bytes has a list of at most c_words::FEW words: 1 + 800 / 4 entries of five.
const SMALL: usize = 800;

// Runs a plan over a value, with scratch room of N words for the list; the list goes out as bytes only when the whole value is accepted.
fn run_listing<const N: usize>(plan: &[u32], value: &[u8], list: &mut [u8]) -> Answer
    requires { Roomy (length value.now) N × (N ≤ 8192) }
    ensures { SettlesRun (run_of plan.now value.now (word_room (length list.old))) result list.old list.new }
{
    let mut scratch = [0u32; N];
    match run_plan::check(plan, value, &mut scratch) {
        Ok(words) => c_words::put_answer(Fault::LIST_ROOM, &scratch, words, list),
        Err(refusal) => Answer::from(refusal),
    }
}

fn run_words(plan: &[u32], value: &[u8], list: &mut [u8]) -> Answer
    ensures { SettlesRun (run_of plan.now value.now (word_room (length list.old))) result list.old list.new }
{
    if value.len() <= SMALL {
        return run_listing::<{ c_words::FEW }>(plan, value, list);
    }
    run_listing::<{ constants::MOST_WORDS }>(plan, value, list)
}

// Runs a plan that crosses, in room for N words.
fn run_crossed<const N: usize>(plan: &[u8], value: &[u8], list: &mut [u8]) -> Answer
    requires { (crosses (length plan.now) ≡ true) × (length plan.now ≤ 4 * N) × (N ≤ 8192) }
    ensures { RunsValue plan.now value.now result list.old list.new }
{
    let mut words = [0u32; N];
    c_words::take_words(plan, &mut words);
    run_words(&words[..plan.len() / 4], value, list)
}

// Checks a value by a plan and lists it.
pub fn run_value(plan: &[u8], value: &[u8], list: &mut [u8]) -> Answer
    ensures { RunsValue plan.now value.now result list.old list.new }
{
    if !c_words::whole_words(plan.len()) {
        return Answer::from(Fault::BAD_PLAN.at(0));
    }
    if plan.len() <= 4 * c_words::FEW {
        return run_crossed::<{ c_words::FEW }>(plan, value, list);
    }
    run_crossed::<{ constants::MOST_WORDS }>(plan, value, list)
}
