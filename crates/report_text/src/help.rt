// The text of `help`.
ghost use Rattle.std.specs.Prelude.{◌≡◌};
ghost use Rattle.report_text.specs.Reports.{help_words};

/// What the program's commands are. It takes no memory.
pub fn help_text() -> &'static str
    ensures { result.now ≡ help_words }
{
    "usage: stock COMMAND
  solve [F]             print an optimal policy
  certify [F]           print its certificate
  check INSTANCE CERT   check a certificate
  demand [F]            print demand laws
  simulate [F]          run a network
  trial N               make, solve and check large instances
  bracket ACTION        bound the average cost on a wide range
  help                  print this text
F, INSTANCE and CERT are file names; - is standard input.
ACTION is solve, certify or check with its files.
"
}
