//! What leads to the instructions of a function, as a table.

ghost use Rattle.std.specs.Prelude.{◌≡◌, ◌<◌, length, IfSome};
ghost use Rattle.code_runs.specs.Checks as rule;
ghost use Rattle.code_checks.specs.DepthTable as spec;

/// What leads to an instruction.
#[derive(Clone, Copy, Debug, PartialEq, Eq)]
pub enum Arrival {
    /// No instruction so far.
    Nothing,
    /// Instructions that agree on this number of operands.
    With(u32),
    /// Instructions that don't agree.
    Clash,
}

/// An instruction more leads there, with so many operands.
fn arrives_too(depth: u32, led: Arrival) -> Arrival
    ensures { spec.led_of result ≡ rule.led_too depth (spec.led_of led) }
{
    match led {
        Arrival::Nothing => Arrival::With(depth),
        Arrival::With(other) => agreed(depth, other),
        Arrival::Clash => Arrival::Clash,
    }
}

fn agreed(depth: u32, other: u32) -> Arrival
    ensures { spec.led_of result ≡ rule.led_too depth (rule.Led.By other) }
{
    if depth == other {
        return Arrival::With(depth);
    }
    Arrival::Clash
}

/// The instruction before leads there too, where it leads on.
pub fn with_before(before: Option<u32>, led: Arrival) -> Arrival
    ensures { spec.led_of result ≡ spec.with_before before (spec.led_of led) }
{
    match before {
        None => led,
        Some(depth) => arrives_too(depth, led),
    }
}

/// How many operands there are at an instruction to which this leads.
pub fn depth_of(led: Arrival) -> u32
    ensures { result ≡ rule.depth_of (spec.led_of led) }
{
    match led {
        Arrival::With(depth) => depth,
        _ => 0,
    }
}

/// Notes that a jump leads to an instruction with so many operands.
pub fn note(table: &mut [Arrival], to: Option<u32>, depth: u32)
    requires { IfSome to (λ w. w < length table.old) }
    ensures { spec.leds table.new ≡ spec.noted to depth (spec.leds table.old) }
{
    if let Some(to) = to {
        let to = to as usize;
        table[to] = arrives_too(depth, table[to]);
    }
}
