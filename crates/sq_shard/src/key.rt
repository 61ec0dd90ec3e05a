//! The shard of a key.
ghost use Rattle.std.specs.Prelude.{◌≡◌, ◌≤◌, ◌<◌, ◌%◌, fold};
ghost use Rattle.sq_value.specs.declared.value.Value.TheVariants.{Int, Null, Text};
ghost use Rattle.sq_expr.specs.Meaning.{columns_of};
ghost use Rattle.sq_shard.specs.Shards.{HasColumns, mixed, onto, shard_number};

use sq_value::{Row, Str, Value};

/// The shard of a key among `shards` shards, 1 to 64. It depends on the key bytes alone, and is 0 for the empty key. Takes no
/// memory.
pub fn shard_of(key: &Row, shards: u32) -> u32
    requires { (1 ≤ shards) × (shards ≤ 64) }
    ensures number { result ≡ shard_number shards key.now }
    ensures inside { result < shards }
{
    let mut h = 0;
    for i in 0..key.len() {
        h = mix_value(h, key.at(i));
    }
    number_of(h, shards)
}

/// The shard of the key that a row has in these columns.
pub fn shard_at(row: &Row, columns: &[u32], shards: u32) -> u32
    requires shards { (1 ≤ shards) × (shards ≤ 64) }
    requires columns { HasColumns columns.now row.now }
    ensures number { result ≡ shard_number shards (columns_of columns.now row.now) }
    ensures inside { result < shards }
{
    let mut h = 0;
    for column in columns {
        h = mix_value(h, row.at(*column as usize));
    }
    number_of(h, shards)
}

// The shard of a hash.
fn number_of(h: u64, shards: u32) -> u32
    requires { 1 ≤ shards }
    ensures number { result ≡ h % shards }
    ensures inside { result < shards }
{
    (h % u64::from(shards)) as u32
}

// A hash with the key bytes of a value behind it.
fn mix_value(h: u64, value: &Value) -> u64
    ensures { result ≡ onto h value.now }
{
    match value {
        Value::Null => mix_null(h),
        Value::Int(number) => mix_number(h, *number),
        Value::Text(text) => mix_text(h, text),
    }
}

#[tactic(auto, unfolding(crate::specs::Shards::onto))]
fn mix_null(h: u64) -> u64
    ensures { result ≡ onto h Null }
{
    mix(h, 0)
}

#[tactic(auto, unfolding(crate::specs::Shards::onto))]
fn mix_number(h: u64, number: i64) -> u64
    ensures { result ≡ onto h (Int number) }
{
    mix_all(mix(h, 1), &number.to_be_bytes())
}

#[tactic(auto, unfolding(crate::specs::Shards::onto))]
fn mix_text(h: u64, text: &Str) -> u64
    ensures { result ≡ onto h (Text text.now) }
{
    let bytes = text.as_str().as_bytes();
    let h = mix_all(mix(h, 2), &(bytes.len() as u64).to_be_bytes());
    mix_all(h, bytes)
}

// A hash with bytes behind it.
fn mix_all(start: u64, bytes: &[u8]) -> u64
    ensures { result ≡ fold mixed start bytes.now }
{
    let mut h = start;
    for byte in bytes {
        h = mix(h, *byte);
    }
    h
}

// A hash with a byte behind it.
fn mix(h: u64, byte: u8) -> u64
    ensures { result ≡ mixed h byte }
{
    h.wrapping_mul(1099511628211)
        .wrapping_add(u64::from(byte))
        .wrapping_add(1)
}
