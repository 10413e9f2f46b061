//! Where tasks are cut into pieces.

ghost use Rattle.std.specs.Prelude.{◌≡◌, ◌<◌, ◌≤◌};
ghost use Rattle.floor.specs.kept.Pieces.{first_task};

/// The place of the first task of a piece. The pieces differ in length by one at most.
pub fn first_task(tasks: usize, pieces: u32, number: u32) -> usize
    requires some { 0 < pieces }
    requires within { number ≤ pieces }
    ensures first { result ≡ first_task tasks pieces number }
    ensures within { result ≤ tasks }
{
    (u128::from(number) * tasks as u128 / u128::from(pieces)) as usize
}
