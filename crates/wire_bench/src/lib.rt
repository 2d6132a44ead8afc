// The text check for the benchmark to call by itself: the panel's library reaches it only through messages.
#![tactic(auto)]

ghost use Rattle.std.specs.Prelude.{◌≡◌};
ghost use Rattle.protocol.specs.Text.{well_formed};

#[unsafe(no_mangle)]
pub extern "C" fn textbench_is_utf8(s: &[u8]) -> bool
    ensures { result ≡ well_formed s.now }
{
    wire::text::is_utf8(s)
}
