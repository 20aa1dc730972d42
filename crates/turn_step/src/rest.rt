// Turns that do nothing more.

ghost use Rattle.std.specs.Prelude.{◌≡◌, ◌≤◌, drop, length};
ghost use Rattle.orca_names.specs.declared.limits.TheConstants.{BODY_LIMIT};
ghost use Rattle.turn_step.specs.Rests.{is_mark, rest_of, rests_at};

use behaviour_check::Checked;
use behaviour_code::Instr;
use turn_rules::Frame;

fn is_mark(instr: &Instr) -> bool
    ensures { result ≡ is_mark instr.now }
{
    matches!(instr, Instr::Label(_))
}

/// The place behind the body, where nothing but labels is left of it from this place on.
fn rest_of(body: &[Instr], place: u32) -> Option<u32>
    requires { length body.now ≤ BODY_LIMIT }
    ensures { result ≡ rest_of (drop place body.now) place }
{
    let mut at = place as usize;
    while at < body.len() {
        if !is_mark(&body[at]) {
            return None;
        }
        at += 1;
    }
    Some(at as u32)
}

/// Where the frame's behaviour ends, if nothing but labels is left of it. Its turn would end there and
/// leave all as it was.
#[inline(always)]
pub fn rests_at(code: &Checked, frame: &Frame) -> Option<u32>
    ensures { result ≡ rests_at code.now frame.now }
{
    let body = code.program().body(frame.kind, frame.behaviour);
    rest_of(body, frame.place)
}
