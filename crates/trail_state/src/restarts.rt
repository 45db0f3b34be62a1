ghost use Rattle.trail_state.specs.Restarts.{IsLuby};

/// Term `i` of the sequence 1, 1, 2, 1, 1, 2, 4, 1, .. (Luby, Sinclair and Zuckerman 1993), from
/// `i` = 1 on, and 0 for 0. A search restarts after so many units of conflicts.
pub fn luby(i: u32) -> u32
    ensures { IsLuby i result }
{
    let mut rest = i;
    let mut power: u32 = 1 << 31;
    while rest > 0 {
        if rest >= power {
            if rest - power == power - 1 {
                return power;
            }
            // The second half repeats the first.
            rest -= power - 1;
        }
        power /= 2;
    }
    0
}
