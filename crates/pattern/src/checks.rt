// Whether a texture may belong to what it is lent with.
ghost use Rattle.std.specs.Prelude.{◌≡◌, ◌||◌};
ghost use Rattle.pattern.specs.Answer.{texture_ok};

// Whether a texture is none, or has as many samples as what it belongs to.
pub fn texture_ok(texture: usize, samples: usize) -> bool
    ensures { result ≡ texture_ok texture samples }
{
    texture == 0 || texture == samples
}
