ghost use Rattle.alw_image.specs.Numbers as numbers;
ghost use Rattle.law_machine.specs.Machines.{OnEveryMachine};
ghost use Rattle.law_texts.specs.Words.{MachineHasWords};

/// After every legal journal of an image of 32-bit words, under all parameters, the machine has
/// 32-bit words: in registers, PC, nPC and Y, in copies and home entries, and in packets and messages
/// on links. Each context has 32 registers, of which register 0 is 0; it is trapped at its PC, with a
/// type of one byte; with a hold it is Ready. And a home line is Trap-Always as the image lists it.
pub fn machines_have_words()
    ensures { OnEveryMachine (λ parts parameters journal machine. numbers.HasWords parts → MachineHasWords parts machine) }
{}
