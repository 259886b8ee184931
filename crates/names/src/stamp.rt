ghost use Rattle.std.specs.Prelude.{◌≡◌};
ghost use Rattle.names.specs.Stamps.{stamp_at, server_of, ByTime};

// When and by which copy something was said: the time, and in the lowest byte the server.
pub type Stamp = u64;

// The stamp that the server makes at the time: above all of earlier times, below all of later ones.
pub fn stamp_at(time: u32, server: u8) -> Stamp
    ensures value { result ≡ stamp_at time server }
    ensures server { server_of result ≡ server }
    ensures ordered { ByTime time result }
{
    u64::from(time) * 256 + u64::from(server)
}

// The server that made the stamp.
pub fn server_of(stamp: Stamp) -> u8
    ensures { result ≡ server_of stamp }
{
    (stamp % 256) as u8
}
