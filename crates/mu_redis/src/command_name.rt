//! The names of commands.
ghost use Rattle.std.specs.Prelude.{◌≡◌};
ghost use Rattle.mu_redis.specs.Names.{command_named, own_named, part_named};

/// A command of Redis that is served or refused by a sentence of its own, or `mu` for the server's.
#[derive(Clone, Copy)]
pub enum CommandName {
    Get,
    Exists,
    Strlen,
    Set,
    Del,
    Getset,
    Mu,
    Ping,
    Echo,
    Hello,
    Select,
    Client,
    Config,
    Command,
    Info,
    Quit,
    Mget,
    Mset,
    Msetnx,
    Setnx,
    Setex,
    Psetex,
    Dbsize,
}

impl CommandName {
    /// The command with this name in small letters, if there is one.
    pub fn of(name: &[u8]) -> Option<CommandName>
        ensures { result ≡ command_named name.now }
    {
        match name {
            b"get" => Some(CommandName::Get),
            b"exists" => Some(CommandName::Exists),
            b"strlen" => Some(CommandName::Strlen),
            b"set" => Some(CommandName::Set),
            b"del" => Some(CommandName::Del),
            b"getset" => Some(CommandName::Getset),
            b"mu" => Some(CommandName::Mu),
            b"ping" => Some(CommandName::Ping),
            b"echo" => Some(CommandName::Echo),
            b"hello" => Some(CommandName::Hello),
            b"select" => Some(CommandName::Select),
            b"client" => Some(CommandName::Client),
            b"config" => Some(CommandName::Config),
            b"command" => Some(CommandName::Command),
            b"info" => Some(CommandName::Info),
            b"quit" => Some(CommandName::Quit),
            b"mget" => Some(CommandName::Mget),
            b"mset" => Some(CommandName::Mset),
            b"msetnx" => Some(CommandName::Msetnx),
            b"setnx" => Some(CommandName::Setnx),
            b"setex" => Some(CommandName::Setex),
            b"psetex" => Some(CommandName::Psetex),
            b"dbsize" => Some(CommandName::Dbsize),
            _ => None,
        }
    }
}

/// A command of the server's own.
#[derive(Clone, Copy)]
pub enum OwnName {
    Stop,
    Pause,
    Back,
    Cas,
    Status,
}

impl OwnName {
    /// The command with this name in small letters, if there is one.
    pub fn of(name: &[u8]) -> Option<OwnName>
        ensures { result ≡ own_named name.now }
    {
        match name {
            b"stop" => Some(OwnName::Stop),
            b"pause" => Some(OwnName::Pause),
            b"back" => Some(OwnName::Back),
            b"cas" => Some(OwnName::Cas),
            b"status" => Some(OwnName::Status),
            _ => None,
        }
    }
}

/// A word behind the name of a command, by which it is served.
#[derive(Clone, Copy)]
pub enum PartName {
    Get,
    Setname,
    Setinfo,
    Getname,
    Id,
}

impl PartName {
    /// The word with this name in small letters, if there is one.
    pub fn of(name: &[u8]) -> Option<PartName>
        ensures { result ≡ part_named name.now }
    {
        match name {
            b"get" => Some(PartName::Get),
            b"setname" => Some(PartName::Setname),
            b"setinfo" => Some(PartName::Setinfo),
            b"getname" => Some(PartName::Getname),
            b"id" => Some(PartName::Id),
            _ => None,
        }
    }
}
