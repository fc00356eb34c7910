//! The kinds of modes, and their names.
ghost use Rattle.std.specs.Prelude.{◌≡◌};
ghost use Rattle.hx_ideal.specs.ModeKinds.{kind_name, kind_named};

/// A mode without its lists or maps.
#[derive(Clone, Copy, Debug, PartialEq, Eq)]
pub enum ModeKind {
    FullAuto,
    SemiAuto,
    Customized,
}

impl ModeKind {
    /// The kind that has a name. It takes no memory.
    pub fn from_name(name: &str) -> Option<ModeKind>
        ensures { result ≡ kind_named name.now }
    {
        match name {
            "FULL_AUTO" => Some(ModeKind::FullAuto),
            "SEMI_AUTO" => Some(ModeKind::SemiAuto),
            "CUSTOMIZED" => Some(ModeKind::Customized),
            _ => None,
        }
    }

    /// Its name. It takes no memory.
    pub fn name(self) -> &'static str
        ensures { result.now ≡ kind_name self }
    {
        match self {
            ModeKind::FullAuto => "FULL_AUTO",
            ModeKind::SemiAuto => "SEMI_AUTO",
            ModeKind::Customized => "CUSTOMIZED",
        }
    }
}
