//! The codes of numbers, truth values and options. Numbers of more than 8 bits: one byte below 251,
//! else 251 or 252 and then 4 or 8 bytes. A truth value is the byte 0 or 1; an option is 0, or 1
//! and its value. Bytes that are no such code give any value.
ghost use Rattle.std.specs.Prelude.{◌≡◌, ◌+◌, ◌<◌, ◌≤◌, ◌^◌, ◌++◌, ◌∷◌, List, ℕ, OnOk, length, vec_len, vec_capacity};
ghost use Rattle.step_codes.specs.Adding.{Adds};
ghost use Rattle.step_codes.specs.NumberCodes.{number_onto};

use crate::coded::{Code, Coded};
use byteorder::{ByteOrder, LittleEndian};
use std::alloc::AllocError;

// Adds a byte, and these behind it, for which there is room. Inlined, the copy of so few bytes is
// one word.
#[inline(always)]
fn put_behind(code: &mut Vec<u8>, first: u8, bytes: &[u8])
    requires { vec_len code.old + (length bytes.now + 1) ≤ vec_capacity code.old }
    ensures added { Adds code.old.items code.new.items (λ rest. first ∷ (bytes.now ++ rest)) }
    ensures len { vec_len code.new ≡ vec_len code.old + (length bytes.now + 1) }
    ensures capacity { vec_capacity code.old ≤ vec_capacity code.new }
{
    code.push_reserved(first);
    if code.extend_from_slice(bytes).is_err() {
        // There is room: the clause asks for it.
        unreachable!()
    }
}

// Adds a number that is more than one byte, for which there is room: a byte that tells its size,
// and its bytes.
#[inline(always)]
fn put_wide(code: &mut Vec<u8>, number: u64)
    requires wide { 251 ≤ number }
    requires room { vec_len code.old + 9 ≤ vec_capacity code.old }
    ensures added { Adds code.old.items code.new.items (number_onto number) }
    ensures len { vec_len code.new ≤ vec_len code.old + 9 }
    ensures capacity { vec_capacity code.old ≤ vec_capacity code.new }
{
    if number < 0x1_0000_0000 {
        let mut bytes = [0; 4];
        LittleEndian::write_u32(&mut bytes, number as u32);
        put_behind(code, 251, &bytes);
    } else {
        let mut bytes = [0; 8];
        LittleEndian::write_u64(&mut bytes, number);
        put_behind(code, 252, &bytes);
    }
}

// Adds a number, for which there is room.
#[inline(always)]
pub(crate) fn put_number(code: &mut Vec<u8>, number: u64)
    requires { vec_len code.old + 9 ≤ vec_capacity code.old }
    ensures added { Adds code.old.items code.new.items (number_onto number) }
    ensures len { vec_len code.new ≤ vec_len code.old + 9 }
    ensures capacity { vec_capacity code.old ≤ vec_capacity code.new }
{
    if number < 251 {
        code.push_reserved(number as u8);
    } else {
        put_wide(code, number);
    }
}

// Adds a number that is more than one byte. It is not inlined, since most numbers are small.
#[inline(never)]
fn push_wide(code: &mut Vec<u8>, number: u64) -> Result<(), AllocError>
    requires { 251 ≤ number }
    ensures { OnOk result (Adds code.old.items code.new.items (number_onto number)) }
{
    // A byte that tells the size, and at most eight of the number.
    code.reserve(9)?;
    put_wide(code, number);
    Ok(())
}

impl Coded for u64 {
    ghost use Rattle.std.specs.Prelude.{◌<◌, ◌^◌};
    ghost use Rattle.step_codes.specs.NumberCodes.{number_onto};

    ghost onto = { number_onto };

    ghost fits = { λ n. n < 2 ^ 64 };

    #[inline(always)]
    fn push(&self, code: &mut Vec<u8>) -> Result<(), AllocError> {
        let number = *self;
        if number < 251 {
            (number as u8).push(code)
        } else {
            push_wide(code, number)
        }
    }

    // Reads a number: one byte, or a byte that tells the size and the bytes of the number.
    fn take(code: &mut Code<'_>) -> u64 {
        let first = code.take_byte();
        // 251 says that 4 bytes of the number follow, 252 that 8 do; a lower byte is the number.
        if first == 251 {
            let bytes = code.take_bytes(4);
            // The bytes end too soon, and are no code: 0 is given.
            if bytes.len() < 4 {
                return 0;
            }
            u64::from(LittleEndian::read_u32(bytes))
        } else if first == 252 {
            let bytes = code.take_bytes(8);
            if bytes.len() < 8 {
                return 0;
            }
            LittleEndian::read_u64(bytes)
        } else {
            u64::from(first)
        }
    }
}

impl Coded for u32 {
    ghost use Rattle.std.specs.Prelude.{◌<◌, ◌^◌};
    ghost use Rattle.step_codes.specs.NumberCodes.{number_onto};

    ghost onto = { number_onto };

    ghost fits = { λ n. n < 2 ^ 32 };

    // Adds its code, which is that of the same number with 64 bits.
    fn push(&self, code: &mut Vec<u8>) -> Result<(), AllocError> {
        u64::from(*self).push(code)
    }

    // Reads a number as one with 64 bits.
    fn take(code: &mut Code<'_>) -> u32 {
        // A number of more than 32 bits is no code of such a number: any value will do.
        u64::take(code).min(u64::from(u32::MAX)) as u32
    }
}

impl Coded for u16 {
    ghost use Rattle.std.specs.Prelude.{◌<◌, ◌^◌};
    ghost use Rattle.step_codes.specs.NumberCodes.{number_onto};

    ghost onto = { number_onto };

    ghost fits = { λ n. n < 2 ^ 16 };

    // Adds its code, which is that of the same number with 64 bits.
    fn push(&self, code: &mut Vec<u8>) -> Result<(), AllocError> {
        u64::from(*self).push(code)
    }

    // Reads a number as one with 64 bits.
    fn take(code: &mut Code<'_>) -> u16 {
        // A number of more than 16 bits is no code of such a number: any value will do.
        u64::take(code).min(u64::from(u16::MAX)) as u16
    }
}

impl Coded for u8 {
    ghost use Rattle.std.specs.Prelude.{◌<◌, ◌^◌, ◌∷◌};

    ghost onto = { λ n rest. n ∷ rest };

    ghost fits = { λ n. n < 2 ^ 8 };

    // Adds its code, which is the byte itself.
    fn push(&self, code: &mut Vec<u8>) -> Result<(), AllocError> {
        code.push(*self)?;
        Ok(())
    }

    // Reads the next byte.
    fn take(code: &mut Code<'_>) -> u8 {
        code.take_byte()
    }
}

impl Coded for bool {
    ghost use Rattle.std.specs.Prelude.{◌∷◌, ⊤};
    ghost use Rattle.step_codes.specs.NumberCodes.{bool_byte};

    ghost onto = { λ yes rest. bool_byte yes ∷ rest };

    ghost fits = { λ yes. ⊤ };

    // Adds its code: the byte 1 for true, 0 for false.
    fn push(&self, code: &mut Vec<u8>) -> Result<(), AllocError> {
        code.push(u8::from(*self))?;
        Ok(())
    }

    // Reads a truth value: the byte 1 is true, any other one false.
    fn take(code: &mut Code<'_>) -> bool {
        code.take_byte() == 1
    }
}

impl<T: Coded> Coded for Option<T> {
    ghost use Rattle.step_codes.specs.NumberCodes.{option_onto, FitsOption};

    ghost onto = { option_onto T.onto };

    ghost fits = { FitsOption T.fits };

    // Adds its code: 1 and the code of the value, or 0 where there is none.
    fn push(&self, code: &mut Vec<u8>) -> Result<(), AllocError> {
        match self {
            Some(one) => {
                code.push(1)?;
                one.push(code)?;
            }
            None => code.push(0)?,
        }
        Ok(())
    }

    // Reads an option: a value follows behind the byte 1, and none behind any other.
    fn take(code: &mut Code<'_>) -> Option<T> {
        if code.take_byte() == 1 {
            Some(T::take(code))
        } else {
            None
        }
    }
}
