//! The `lines` mode, which reads lines in place of a message.
ghost use Rattle.std.specs.Prelude.{◌≡◌, codes};
ghost use Rattle.std.specs.Str.{bytes_eq};

use certview_text::Fault;
use der_lines::Fault as LineFault;

/// Returns whether an argument asks for lines.
pub fn asks_for_lines(argument: &str) -> bool
    ensures { result ≡ bytes_eq argument.now (codes "lines") }
{
    argument == "lines"
}

/// Returns the program's fault for the fault of a run.
pub fn fault_of_run(fault: LineFault) -> Fault
    ensures input { fault ≡ LineFault.Input → result ≡ Fault.Input }
    ensures output { fault ≡ LineFault.Output → result ≡ Fault.Output }
    ensures memory { fault ≡ LineFault.Memory → result ≡ Fault.Memory }
{
    match fault {
        LineFault::Input => Fault::Input,
        LineFault::Output => Fault::Output,
        LineFault::Memory => Fault::Memory,
    }
}
