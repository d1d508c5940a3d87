// The addresses of functions and of the tables of virtual functions.

ghost use Rattle.std.specs.Prelude.{◌≡◌};
ghost use Rattle.cpp_layout.specs.Layout.{function_address, table_address};

/// The address of the function with this number.
pub fn fn_addr(i: u32) -> u64
    ensures { result ≡ function_address i }
{
    0x100_0000_0000 + 16 * i as u64
}

/// The address that stands for the class with this number, its table of virtual functions.
pub fn vtable_addr(c: u32) -> u64
    ensures { result ≡ table_address c }
{
    0x200_0000_0000 + 16 * c as u64
}
