// Request 2.3: a round of the generator, and a round back. That one undoes the other, both ways, is shown on bits in `generated`.

#![tactic(auto)]

ghost use Rattle.std.specs.Prelude.{◌≡◌};
ghost use Rattle.meaning.specs.Generator.{round, previous};

// The state a round after x: each shifted word combined by exclusive or with the unshifted one.
pub fn next(x: u32) -> u32
    ensures { result ≡ round x }
{
    let a = x ^ (x << 13);
    let b = a ^ (a >> 17);
    b ^ (b << 5)
}

// The state a round before y: a shift to the left by s is undone by s, 2s and so on up to the width, that to the right by itself.
pub fn previous(y: u32) -> u32
    ensures { result ≡ previous y }
{
    let a = y ^ (y << 5);
    let b = a ^ (a << 10);
    let c = b ^ (b << 20);
    let d = c ^ (c >> 17);
    let e = d ^ (d << 13);
    e ^ (e << 26)
}
