// Faults: what stands in the way of a call, and where it arose.
ghost use Rattle.std.specs.Prelude.{◌≡◌};
ghost use Rattle.device.specs.Faults.{cause_number, layer_number, fault_numbers, out_of_range, sick_at, power_lost, in_range, raised, raised_answer};

// Why a call is refused.
#[derive(Clone, Copy, PartialEq, Eq, Debug)]
pub enum Cause {
    // there is no such sector
    OutOfRange,
    // the sector can be neither read nor written
    Sick,
    // the device has no power
    PowerLost,
}

// The number that stands for the cause. It stands here and not in the enum, whose own numbers, which a cast gives, begin at 0.
impl From<Cause> for u32 {
    ghost from_gives = { λ cause number. number ≡ cause_number cause };

    fn from(cause: Cause) -> u32 {
        match cause {
            Cause::OutOfRange => 1,
            Cause::Sick => 2,
            Cause::PowerLost => 3,
        }
    }
}

// The images and layers of this repository, each with the number by which it names itself in a fault.
#[derive(Clone, Copy, PartialEq, Eq, Debug)]
pub enum Layer {
    PlainImage = 1,
    QueuedImage = 2,
    Mirror = 3,
    Fuse = 4,
}

// The number by which the layer names itself. (Each enum has its own such impl: none of our macros may write it, and a generic one
// would be no plainer.)
impl From<Layer> for u32 {
    ghost from_gives = { λ layer number. number ≡ layer_number layer };

    fn from(layer: Layer) -> u32 {
        layer as u32
    }
}

// What stands in the way of a call: why, at which sector of the layer where it arose (0 where power is lost),
// which layer that is, and how many layers further down it lies.
// A layer goes by its number here and in the functions below, and not by the enum: a device from elsewhere may stand below ours.
#[derive(Clone, Copy, PartialEq, Eq, Debug)]
pub struct Fault {
    pub cause: Cause,
    pub sector: u32,
    pub layer: u32,
    pub depth: u32,
}

// Layer and sector go as two numbers, as they stand in the fault: a pair of them would be no plainer. Each cause keeps a function
// of its own: one that is passed the cause is no plainer, and a loss of power has no sector to pass.
impl Fault {
    // A fault that arises at the layer itself.
    fn arising(cause: Cause, layer: u32, sector: u32) -> Fault
        ensures { result ≡ record { cause = cause; sector = sector; layer = layer; depth = 0 } }
    {
        Fault {
            cause,
            sector,
            layer,
            depth: 0,
        }
    }

    // A sector that the layer does not have.
    pub fn out_of_range(layer: u32, sector: u32) -> Fault
        ensures { result ≡ out_of_range layer sector }
    {
        Fault::arising(Cause::OutOfRange, layer, sector)
    }

    // A sick sector of the layer.
    pub fn sick(layer: u32, sector: u32) -> Fault
        ensures { result ≡ sick_at layer sector }
    {
        Fault::arising(Cause::Sick, layer, sector)
    }

    // Power that is off at the layer.
    pub fn power_lost(layer: u32) -> Fault
        ensures { result ≡ power_lost layer }
    {
        Fault::arising(Cause::PowerLost, layer, 0)
    }

    // The fault as the next layer up tells it.
    pub fn raised(self) -> Fault
        ensures { result ≡ raised self }
    {
        Fault {
            depth: self.depth.saturating_add(1),
            ..self
        }
    }
}

// Cause, sector, layer and depth.
impl From<Fault> for [u32; 4] {
    ghost from_gives = { λ fault numbers. numbers ≡ fault_numbers fault };

    fn from(fault: Fault) -> [u32; 4] {
        [fault.cause.into(), fault.sector, fault.layer, fault.depth]
    }
}

// Whether a layer of so many sectors has this one, or else the fault that it has not.
pub fn in_range(layer: u32, size: u32, sector: u32) -> Result<(), Fault>
    ensures { result ≡ in_range layer size sector }
{
    if sector < size {
        Ok(())
    } else {
        Err(Fault::out_of_range(layer, sector))
    }
}

// An answer as the next layer up tells it; power is told as an answer too.
pub fn raised(answer: Result<(), Fault>) -> Result<(), Fault>
    ensures { result ≡ raised_answer answer }
{
    answer.map_err(Fault::raised)
}
