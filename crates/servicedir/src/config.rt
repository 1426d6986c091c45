//! What the files of a service directory say.
ghost use Rattle.std.specs.Prelude.{◌≡◌};
ghost use Rattle.servicedir.specs.Config.{plain_config};

/// How a service is supervised, as the files of its directory say. Page `servicedir`.
#[derive(Clone, Copy, PartialEq, Eq, Debug)]
pub struct Config {
    /// There is a `down`: the service is not started when its supervisor starts.
    pub down: bool,
    /// There is a `finish`, which runs after each death of `run`.
    pub finish: bool,
    /// The descriptor on which the daemon writes a newline when it is ready: 1, or 3 to 9. None: it
    /// never tells that it is ready. Page `notifywhenup`; that 0, 2 and descriptors over 9 are not
    /// served is chosen here.
    pub notification_fd: Option<u8>,
    /// How many milliseconds after its down signal a service that has not died gets SIGKILL; 0:
    /// never.
    pub timeout_kill: u32,
    /// How many milliseconds after its start a `finish` that has not ended gets SIGKILL; 0: never.
    pub timeout_finish: u32,
    /// The most deaths that are kept, at most 4096; 0 keeps none.
    pub max_death_tally: u16,
    /// The number of the signal, from 1 to 64, that tells the service to go down.
    pub down_signal: u8,
}

impl Config {
    /// What a directory with nothing but `run` says. The service is started, has no `finish`, never
    /// tells that it is ready, and may take as long as it likes to go down; a `finish` would have
    /// 5000 ms. 100 deaths are kept, and SIGTERM takes it down. These are the defaults of page
    /// `servicedir`. Takes no memory.
    pub fn plain() -> Config
        ensures { result ≡ plain_config }
    {
        Config {
            down: false,
            finish: false,
            notification_fd: None,
            timeout_kill: 0,
            timeout_finish: 5000,
            max_death_tally: 100,
            down_signal: 15,
        }
    }
}
