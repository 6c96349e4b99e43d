// Numbers that are drawn.

ghost use Rattle.std.specs.Prelude.{◌≡◌, ◌<◌};
ghost use Rattle.feed_gen.specs.Draws as Draws;

// A number below 65,536 from the feed's number and a place in its sequence.
fn mix(number: u32, k: u64) -> u64
    requires { k < 1000 }
    ensures { result ≡ Draws.mix number k }
{
    ((k + 1) * 2_654_435_761 + u64::from(number) * 40_503) % 4_294_967_296 / 65_536
}

/// One of so many choices, by the feed's number and a place in its sequence.
#[tactic(auto, unfolding(crate::specs::Draws::pick))]
pub(crate) fn pick(number: u32, k: u64, choices: u64) -> u64
    requires place { k < 1000 }
    requires some { 0 < choices }
    ensures value { result ≡ Draws.pick number k choices }
    ensures bound { result < choices }
{
    mix(number, k) % choices
}
