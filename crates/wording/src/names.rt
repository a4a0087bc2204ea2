// The first field of a line.
ghost use Rattle.std.specs.Prelude.{◌≡◌};
ghost use Rattle.wording.specs.Names.{kind_of};

// The steps that name a device alone.
#[derive(Clone, Copy, Debug, PartialEq, Eq)]
pub enum Act {
    Push,
    Send,
    Confirmed,
    Ask,
    Drop,
    Receive,
    Pull,
    Accept,
    Serverdrop,
}

// What the first field names.
#[derive(Clone, Copy, Debug, PartialEq, Eq)]
pub enum Kind {
    Start,
    Update,
    Read,
    Batch,
    Cut,
    Crash,
    Device(Act),
}

// The step that a first field names.
#[tactic(auto, unfolding(crate::specs::Names::kind_of, crate::specs::Names::act_of))]
pub fn kind_of(name: &[u8]) -> Option<Kind>
    ensures { result ≡ kind_of name.now }
{
    match name {
        b"start" => Some(Kind::Start),
        b"update" => Some(Kind::Update),
        b"read" => Some(Kind::Read),
        b"batch" => Some(Kind::Batch),
        b"cut" => Some(Kind::Cut),
        b"crash" => Some(Kind::Crash),
        b"push" => Some(Kind::Device(Act::Push)),
        b"send" => Some(Kind::Device(Act::Send)),
        b"confirmed" => Some(Kind::Device(Act::Confirmed)),
        b"ask" => Some(Kind::Device(Act::Ask)),
        b"drop" => Some(Kind::Device(Act::Drop)),
        b"receive" => Some(Kind::Device(Act::Receive)),
        b"pull" => Some(Kind::Device(Act::Pull)),
        b"accept" => Some(Kind::Device(Act::Accept)),
        b"serverdrop" => Some(Kind::Device(Act::Serverdrop)),
        _ => None,
    }
}
