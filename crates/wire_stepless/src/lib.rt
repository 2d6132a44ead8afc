// The text check without the step over plain bytes (L5), for a benchmark to hold beside the one of `wire_letters` that has it. It is a crate
// of its own so that each is compiled as if the other were not there.
#![tactic(auto)]

ghost use Rattle.std.specs.Prelude.{◌≡◌, true};
ghost use Rattle.protocol.specs.Text.{well_formed};

pub fn textbench_is_utf8_stepless(s: &[u8]) -> bool
    ensures { result ≡ well_formed s.now }
{
    let mut i = 0;
    while i < s.len() {
        if s[i] < 0x80 {
            i += 1;
        } else {
            let end = wire_letters::letters::letters_end(s, i);
            if end == i {
                return false;
            }
            i = end;
        }
    }
    true
}

// The step changes nothing of what is accepted: the two checks agree on any bytes.
pub fn alike(s: &[u8]) -> bool
    ensures { result ≡ true }
{
    let stepped = wire_letters::letters::is_utf8(s);
    let stepless = textbench_is_utf8_stepless(s);
    stepped == stepless
}
