//! The programs that are run.

/// Adds one, by its contract from 0 to 9.
pub const INC: &str = "1: proc int main(int n)
requires n >= 0, n <= 9;
ensures result == pre(n) + 1;
{
3: n = n + 1;
4: return n;
}
";

/// Calls itself down to 0.
pub const DOWN: &str = "1: proc int down(int n)
requires n >= 0;
ensures result == 0;
{
2: if n == 0 goto 4;
3: n = n - 1;
4: n = call down(n);
5: return n;
6: return 0;
}
7: proc int main()
{
int x;
8: x = call down(5);
9: return x;
}
";

/// Counts the bytes of its word.
pub const TEXT: &str = "1: proc int main(ptr s)
{
int n;
int z;
2: n = 0;
3: if load s == 0 goto 5;
4: n = n + 1;
5: s = s + 1;
6: goto 1;
7: return n;
}
";

/// Prints its input.
pub const ECHO: &str = "1: proc int main()
{
int c;
2: c = call getchar();
3: if c < 0 goto 4;
4: call putchar(c);
5: goto 0;
6: return c;
}
";

/// Prints, and then stores past its buffer.
pub const PAST: &str = "1: proc int main()
{
buf b 2;
ptr p;
2: call putchar(111);
3: call putchar(107);
4: p = &b;
5: p = p + 2;
6: store p, 0;
7: return 0;
}
";

/// Stores at the place that its word says.
pub const WRITE_AT: &str = "1: proc int main(int n)
{
buf b 4;
ptr p;
2: p = &b;
3: p = p + n;
3: store p, 0;
4: return 0;
}
";

/// Calls by a contract for which its buffer must be longer than its word says.
pub const SKIP: &str = "1: proc void skip(int n, pptr p)
requires n >= 0, n < alloc(*p);
modifies *p, body(*p);
ensures base(*p) == base(pre(*p)), offset(*p) == pre(offset(*p)) + n;
{
ptr q;
5: if n <= 0 goto 7;
6: q = get p;
6: store q, 10;
7: q = q + 1;
7: put p, q;
8: n = n - 1;
5: goto 0;
10: q = get p;
10: store q, 0;
10: return;
}
12: proc int main(int n)
{
buf b 5;
pcell q;
ptr s;
pptr w;
15: w = &q;
15: s = &b;
15: put w, s;
16: call skip(n, w);
17: return 0;
}
";

/// Goes to the end of its word.
pub const SCAN: &str = "1: proc int main(ptr s)
requires nullt(s);
{
char c;
ptr p;
6: p = s;
7: c = load p;
8: if c == 0 goto 6;
9: p = p + 1;
10: c = load p;
8: goto 2;
12: return 0;
}
";

/// Calls itself along a literal.
pub const LENGTH: &str = "literal l { 97, 98, 99 };
1: proc int len(ptr s)
requires nullt(s);
ensures result == pre(strlen(s));
{
int n;
ptr p;
4: if load s != 0 goto 2;
5: return 0;
6: p = s + 1;
6: n = call len(p);
7: n = n + 1;
7: return n;
}
9: proc int main()
{
int n;
ptr p;
10: p = &l;
10: n = call len(p);
10: return n;
}
";

/// Reads a byte after the terminator.
pub const AFTER: &str = "1: proc int main()
{
buf b 4;
char c;
ptr p;
4: p = &b;
4: store p, 0;
5: p = p + 1;
5: store p, 120;
6: c = load p;
7: return c;
}
";

/// Returns a pointer to a local.
pub const BAD: &str = "1: proc ptr bad()
{
buf b 4;
ptr p;
3: p = &b;
3: return p;
}
5: proc int main()
{
6: call bad();
7: return 0;
}
";

/// Makes a buffer of the size that its word says, and reads its first byte.
pub const MAKE: &str = "1: proc int main(int n)
{
ptr p;
int x;
2: p = call malloc(n);
3: if p == null goto 4;
4: x = load p;
5: return x;
6: return 1;
}
";

/// Returns the first byte of its word.
pub const FIRST: &str = "1: proc int main(ptr s)
{
int x;
2: x = load s;
3: return x;
}
";
