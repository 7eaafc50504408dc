// Decimal numbers.
ghost use Rattle.std.specs.Prelude.{◌≡◌, ◌+◌, ◌-◌, ◌*◌, ◌^◌, ◌<◌, ◌≤◌, true, nat_le, IfSome};
ghost use Rattle.std.specs.List.{list_all};
ghost use Rattle.cov_base.specs.Bytes.{is_digit};
ghost use Rattle.cov_script.specs.Fields.{is_plain, digits_onto, within_long, narrowed, number_of, long_number_of};

/// Reads a decimal number of 32 bits without leading zeros.
pub(crate) fn read_number(bytes: &[u8]) -> Option<u32>
    ensures { result ≡ number_of bytes.now }
{
    narrow(read_long_number(bytes))
}

// A number, if it is one of 32 bits.
fn narrow(number: Option<u64>) -> Option<u32>
    ensures { result ≡ narrowed number }
{
    match number {
        Some(number) => {
            if number < 0x1_0000_0000 {
                return Some(number as u32);
            }
            None
        }
        None => None,
    }
}

/// Reads a decimal number of 64 bits without leading zeros. It is linear in the bytes.
pub fn read_long_number(bytes: &[u8]) -> Option<u64>
    ensures { result ≡ long_number_of bytes.now }
{
    if is_plain(bytes) {
        return digits_value(bytes);
    }
    None
}

fn is_plain(bytes: &[u8]) -> bool
    ensures { result ≡ is_plain bytes.now }
{
    match bytes {
        [] => false,
        [byte] => is_digit(*byte),
        [first, ..] => *first != b'0' && all_digits(bytes),
    }
}

fn all_digits(bytes: &[u8]) -> bool
    ensures { result ≡ list_all is_digit bytes.now }
{
    bytes.iter().all(|b| is_digit(*b))
}

fn is_digit(byte: u8) -> bool
    ensures { result ≡ is_digit byte }
{
    b'0' <= byte && byte <= b'9'
}

// The number that digits give, None exactly where it has more than 64 bits.
fn digits_value(bytes: &[u8]) -> Option<u64>
    ensures { result ≡ within_long (digits_onto 0 bytes.now) }
{
    let mut value = 0;
    let mut rest = bytes;
    while let [digit, behind @ ..] = rest {
        match one_more(value, *digit) {
            None => return None,
            Some(longer) => {
                value = longer;
                rest = behind;
            }
        }
    }
    Some(value)
}

// The number with one digit more.
fn one_more(value: u64, digit: u8) -> Option<u64>
    ensures { result ≡ within_long (10 * value + (digit - 48)) }
{
    let longer = 10 * value as u128 + digit.saturating_sub(b'0') as u128;
    if longer < 0x1_0000_0000_0000_0000 {
        return Some(longer as u64);
    }
    None
}
