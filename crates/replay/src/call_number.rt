// The numbers of the calls.
ghost use Rattle.std.specs.Prelude.{◌<◌};
ghost use Rattle.replay.specs.Calls.{call_numbers};

// The numbers of the calls are from 1 on and below this.
pub const CALLS: usize = 68;

#[derive(Clone, Copy)]
pub struct CallNumber {
    pub value: usize,
    pub ghost known: { value < call_numbers },
}

impl CallNumber {
    pub fn new(value: u64) -> Option<CallNumber> {
        if value == 0 || CALLS as u64 <= value {
            return None;
        }
        Some(CallNumber {
            value: value as usize,
        })
    }
}
