//! What `--help` and `--version` print.
ghost use Rattle.std.specs.Prelude.{◌≡◌};
ghost use Rattle.hx_words.specs.Usage.{usage_text, version_text};

/// How the program is used, with a line feed at the end.
pub fn usage() -> &'static str
    ensures { result.now ≡ usage_text }
{
    "fodderca runs the script of a simulated cluster controller

Usage: fodderca [OPTIONS] < INPUT

The input is a description of a cluster, a line with three hyphens, and a script or a log.
Of a script each accepted step is printed, then what its line came to, and last the view.

Modes:
  sim             runs the script in one thread, line by line
  gen             makes an input of a size, runs it and prints its summary
  check           tells whether a log, as sim prints it, is that of a lawful history

Options:
  --mode MODE     the mode [default: sim]
  --lanes N       threads that run transitions, 1 to 16 [default: 4]
  --rounds N      rounds that each actor runs, 0 to 1000 [default: 10]
  --seed N        what a made input begins with, 0 to 18446744073709551615 [default: 1]
  --size N        partitions of a made input, 1 to 256 [default: 64]
  -h, --help      prints this text
  -V, --version   prints the version
An option that the mode does not need has no effect.

Example:
  printf 'builtin demo\\n---\\njoin n1\\nlead c1\\npass c1\\nwork n1\\nview\\n' | fodderca
"
}

/// The program's name and version, with a line feed at the end.
pub fn version() -> &'static str
    ensures { result.now ≡ version_text }
{
    "fodderca 0.1.0\n"
}
