//! Whose letters a connection follows.
ghost use Rattle.std.specs.Prelude.{◌≡◌};
ghost use Rattle.server_rules.specs.Made.{follows_any, is_followed};

use s6_events::Name;

/// Whose letters a connection follows.
#[derive(Clone, Copy, Debug, PartialEq, Eq)]
pub enum Following {
    Nobody,
    /// All services.
    All,
    /// Each service of this name, now or later.
    One(Name),
}

impl Following {
    /// Whether a service of this name is followed.
    pub fn covers(&self, name: &Name) -> bool
        ensures { result ≡ is_followed name.now self.now }
    {
        match self {
            Following::Nobody => false,
            Following::All => true,
            Following::One(followed) => followed == name,
        }
    }

    /// Whether any service may be followed.
    pub fn is_any(&self) -> bool
        ensures { result ≡ follows_any self.now }
    {
        !matches!(self, Following::Nobody)
    }
}
