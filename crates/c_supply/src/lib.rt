// Writing a value from a supply, by a plan.
#![tactic(auto)]

ghost use Rattle.std.specs.Prelude.{◌≡◌, true, ◌+◌, ◌*◌, ◌-◌, ◌≤◌, length, take, drop};
ghost use Rattle.c_supply.specs.Supplies.{BothCross};
ghost use Rattle.protocol.specs.Building.{write_of};
ghost use Rattle.protocol.specs.Crossing.{words_in, crosses, put_answer, uncrossed_supply, SettlesPut, WritesValue};

use forms::Answer;
use forms::fault::Fault;

// Writes a value from the plan of the first n words and the list of those up to `end`.
fn write_words(words: &[u32], n: usize, end: usize, src: &[u8], out: &mut [u8]) -> Answer
    requires { (n ≤ end) × (end ≤ length words.now) }
    ensures { SettlesPut (write_of (take n words.now) (take (end - n) (drop n words.now)) src.now (length out.old)) result
        out.old out.new }
{
    match supply_write::write(&words[..n], &words[n..end], src, out) {
        Ok(bytes) => Answer::success(bytes, 0),
        Err(fault) => Answer::from(fault.at(0)),
    }
}

// Writes a value from a plan and a list that cross, in room for N words.
fn write_crossed<const N: usize>(plan: &[u8], list: &[u8], src: &[u8], out: &mut [u8]) -> Answer
    requires { BothCross plan.now list.now × (length plan.now + length list.now ≤ 4 * N) × (N ≤ 16384) }
    ensures { WritesValue plan.now list.now src.now result out.old out.new }
{
    let mut words = [0u32; N];
    c_words::take_both(plan, list, &mut words);
    let n = plan.len() / 4;
    let end = n + list.len() / 4;
    write_words(&words, n, end, src, out)
}

// A list that does not cross: 33 comes before its 34.
fn uncrossed_list(plan: &[u8]) -> Answer
    requires { crosses (length plan.now) ≡ true }
    ensures { result ≡ put_answer (uncrossed_supply (words_in plan.now)) }
{
    let n = plan.len() / 4;
    let mut words = [0u32; constants::MOST_WORDS];
    c_words::take_words(plan, &mut words);
    if plan_check::plan_ok(&words[..n]) {
        return Answer::from(Fault::NO_VALUE.at(0));
    }
    Answer::from(Fault::BAD_PLAN.at(0))
}

// Writes the value of a plan that has the supply of a list and source bytes.
pub fn write_value(plan: &[u8], list: &[u8], src: &[u8], out: &mut [u8]) -> Answer
    ensures { WritesValue plan.now list.now src.now result out.old out.new }
{
    if !c_words::whole_words(plan.len()) {
        return Answer::from(Fault::BAD_PLAN.at(0));
    }
    if !c_words::whole_words(list.len()) {
        return uncrossed_list(plan);
    }
    if c_words::few_words(plan.len(), list.len()) {
        return write_crossed::<{ c_words::FEW }>(plan, list, src, out);
    }
    write_crossed::<{ c_words::BOTH }>(plan, list, src, out)
}
