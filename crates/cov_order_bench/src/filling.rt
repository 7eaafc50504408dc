// Lines put in order.
ghost use Rattle.std.specs.Prelude.{◌≡◌, ◌<◌, ◌≤◌, []};

use cov_base::{LineNo, LineNos, Memory};
use cov_order::Order;

/// So many lines, each after line 1 or after one that is drawn.
pub fn fill(order: &mut Order, count: u32, drawn: bool) -> Result<LineNos, Memory>
    requires { order.old.lines ≡ [] }
{
    if count == 0 || count > 16_777_216 {
        return order.walk();
    }
    order.reserve(count)?;
    order.insert_after(LineNo::new(0), LineNo::new(1));
    let mut random = 7;
    'numbers: for number in 2..=count {
        random = next_random(random);
        let anchor = anchor_of(number, random, drawn);
        order.insert_after(LineNo::new(anchor), LineNo::new(number));
    }
    order.walk()
}

fn next_random(random: u64) -> u64 {
    random
        .wrapping_mul(6364136223846793005)
        .wrapping_add(1442695040888963407)
}

fn anchor_of(number: u32, random: u64, drawn: bool) -> u32
    requires { 2 ≤ number }
    ensures above { 0 < result }
    ensures below { result < number }
{
    if !drawn {
        return 1;
    }
    1 + ((random >> 33) % u64::from(number - 1)) as u32
}
