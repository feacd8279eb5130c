// How much room a check needs.
ghost use Rattle.std.specs.Prelude.{◌≡◌};
ghost use Rattle.decision_model.specs.Finite.{IsValidFinite};
ghost use Rattle.decision_model.specs.Average.{IsValidAverage};
ghost use Rattle.decision_model.specs.Serial.{IsValidSerial};
ghost use Rattle.decision_model.specs.Valid.{IsValid};
ghost use Rattle.cert_check.specs.Tables.{lots_room, finite_room, average_room, serial_room, room_of, cell_count, sum_count};

use decision_model::{Average, Finite, Instance, LotSize, Serial};

// How many cells and how many sums of weights a check works in.
#[derive(Clone, Copy)]
struct Room {
    cells: usize,
    sums: usize,
}

// A cell a period.
fn lots_room(lots: &LotSize) -> Room
    ensures { result ≡ lots_room lots.now }
{
    Room {
        cells: lots.demand.as_slice().len(),
        sums: 0,
    }
}

fn finite_room(finite: &Finite) -> Room
    requires { IsValidFinite finite.now }
    ensures { result ≡ finite_room finite.now }
{
    Room {
        cells: finite_recursion::cells_of(finite),
        sums: finite_recursion::sums_of(finite),
    }
}

fn average_room(average: &Average) -> Room
    requires { IsValidAverage average.now }
    ensures { result ≡ average_room average.now }
{
    Room {
        cells: average_recursion::cells_of(average),
        sums: average_recursion::sums_of(average),
    }
}

fn serial_room(serial: &Serial) -> Room
    requires { IsValidSerial serial.now }
    ensures { result ≡ serial_room serial.now }
{
    Room {
        cells: serial_recursion::cells_of(serial),
        sums: 0,
    }
}

// The room that a check of the instance's kind needs.
fn room_of(instance: &Instance) -> Room
    requires { IsValid instance.now }
    ensures { result ≡ room_of instance.now }
{
    match instance {
        Instance::News(_) | Instance::Network(_) => Room { cells: 0, sums: 0 },
        Instance::Lots(lots) => lots_room(lots),
        Instance::Finite(finite) => finite_room(finite),
        Instance::Average(average) => average_room(average),
        Instance::Serial(serial) => serial_room(serial),
    }
}

/// How many cells a check of a certificate for the instance works in: none for a newsvendor or a network, one a period for
/// lots, and otherwise a few for each position of the grid.
pub fn cells_of(instance: &Instance) -> usize
    requires { IsValid instance.now }
    ensures { result ≡ cell_count instance.now }
{
    room_of(instance).cells
}

/// How many sums of weights a check of a certificate for the instance works in: those of the law of the demand until an
/// order comes, twice, for the kinds with a lead time, and none for the others.
pub fn sums_of(instance: &Instance) -> usize
    requires { IsValid instance.now }
    ensures { result ≡ sum_count instance.now }
{
    room_of(instance).sums
}
