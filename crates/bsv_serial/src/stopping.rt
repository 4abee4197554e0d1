ghost use Rattle.std.specs.Prelude.{◌≡◌, ◌<◌, length, slice_get};
ghost use Rattle.std.specs.List.{AllByRecursion};
ghost use Rattle.bsv_serial.specs.Decider as spec;

/// The element is stopped by this one, where none stops it so far.
fn stop(stoppers: &mut [Option<u32>], number: u32, by: u32)
    requires { number < length stoppers.old }
    ensures { stoppers.new ≡ spec.stopped_at stoppers.old number by
        (spec.flattened (slice_get stoppers.old number)) }
{
    let at = number as usize;
    if stoppers[at].is_none() {
        stoppers[at] = Some(by);
    }
}

/// Each of these elements is stopped by this one, where none stops it so far.
#[tactic(auto, unfolding(crate::specs::Decider::all_stopped))]
pub fn stop_all(stoppers: &mut [Option<u32>], stopped: &[u32], by: u32)
    requires { AllByRecursion (λ m. m < length stoppers.old) stopped.now }
    ensures { stoppers.new ≡ spec.all_stopped stoppers.old stopped.now by }
{
    let mut rest = stopped;
    while let Some((number, after)) = rest.split_first() {
        stop(stoppers, *number, by);
        rest = after;
    }
}
