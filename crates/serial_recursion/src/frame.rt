// The numbers of a period that its rows rest on.
ghost use Rattle.std.specs.Prelude.{◌≡◌, suc, ◌<◌, ◌≤◌, ◌^◌, ◌≤ℤ◌, unsigned_abs};
ghost use Rattle.decision_model.specs.Positions.{positions_from};
ghost use Rattle.decision_model.specs.Serial.{IsValidSerial};
ghost use Rattle.serial_recursion.specs.Rows.{IsFrame};

use decision_model::Serial;

#[derive(Clone, Copy, Debug)]
pub(crate) struct Frame {
    // The low end of the period's grid.
    pub(crate) low: i64,
    // How many positions the grid has.
    pub(crate) count: usize,
    // How far the next period's grid begins below it.
    pub(crate) greatest: usize,
    // The sum of the weights of each law.
    pub(crate) total: u128,
    // The factor on the values of the next period.
    pub(crate) num: u32,
    // What the values of the period are over.
    pub(crate) scale: u128,
    // The same without the weights of the period.
    pub(crate) own_scale: u128,
}

// The positions of a grid.
fn count_of(low: i64, cap: i64) -> usize
    requires low { unsigned_abs low ≤ 2 ^ 40 }
    requires cap { unsigned_abs cap ≤ 2 ^ 40 }
    requires some { low ≤ℤ cap }
    ensures { result ≡ positions_from low cap }
{
    (cap - low) as usize + 1
}

// The numbers after the last period.
pub(crate) fn end_frame(serial: &Serial) -> Frame
    requires { IsValidSerial serial.now }
    ensures { IsFrame serial.now 0 result }
{
    let low = serial.low(serial.periods + 1);
    Frame {
        low,
        count: count_of(low, serial.cap),
        greatest: serial.laws.greatest() as usize,
        total: serial.laws.total(),
        num: serial.discount_num,
        scale: 1,
        own_scale: 1,
    }
}

// The numbers of the period before.
pub(crate) fn next_frame(serial: &Serial, periods: u32, frame: &Frame) -> Frame
    requires valid { IsValidSerial serial.now }
    requires left { periods < serial.now.periods }
    requires frame { IsFrame serial.now periods frame.now }
    ensures { IsFrame serial.now (suc periods) result }
{
    let low = serial.low(serial.periods - periods);
    let own_scale = frame.scale * u128::from(serial.discount_den);
    Frame {
        low,
        count: count_of(low, serial.cap),
        greatest: frame.greatest,
        total: frame.total,
        num: frame.num,
        scale: own_scale * frame.total,
        own_scale,
    }
}
