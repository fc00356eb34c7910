//! The numbers by which script lines and log entries tell modes.
ghost use Rattle.std.specs.Prelude.{◌≡◌};
ghost use Rattle.hx_script.specs.Modes.{mode_number, mode_numbered};

use hx_ideal::ModeKind;

/// The number of a mode.
pub fn mode_number(kind: ModeKind) -> u8
    ensures { result ≡ mode_number kind }
{
    match kind {
        ModeKind::FullAuto => 0,
        ModeKind::SemiAuto => 1,
        ModeKind::Customized => 2,
    }
}

/// The mode that has a number.
pub fn mode_numbered(number: u8) -> Option<ModeKind>
    ensures { result ≡ mode_numbered number }
{
    match number {
        0 => Some(ModeKind::FullAuto),
        1 => Some(ModeKind::SemiAuto),
        2 => Some(ModeKind::Customized),
        _ => None,
    }
}
