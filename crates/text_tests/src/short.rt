//! Short texts.
use crate::show;
use std::io;

pub(crate) fn print(rt: &impl Print) -> io::Result<()> {
    print_lines(rt)?;
    print_more_lines(rt)?;
    print_order(rt)?;
    print_names(rt)?;
    print_labels(rt)?;
    print_operations(rt)?;
    print_vectors(rt)?;
    print_sets(rt)?;
    print_properties(rt)?;
    print_calls(rt)
}

/// Lines: keywords, numbers of words and line feeds.
fn print_lines(rt: &impl Print) -> io::Result<()> {
    show(rt, "nothing", b"")?;
    show(rt, "an empty line", b"\n")?;
    show(rt, "a space", b" \n")?;
    show(rt, "no line feed", b"context a 0 0")?;
    show(rt, "no last line feed", b"context a 0 0\ncontext b 0 0")?;
    show(rt, "a last byte 0", b"context a 0 0\n\0")?;
    show(rt, "an empty last line", b"context a 0 0\n\n")?;
    show(rt, "a capital keyword", b"Context a 0 0\n")?;
    show(rt, "a longer keyword", b"contexts a 0 0\n")?;
    show(rt, "a space before", b" context a 0 0\n")?;
    show(rt, "a space behind", b"context a 0 0 \n")?;
    show(rt, "a doubled space", b"context  a 0 0\n")?;
    show(rt, "a tab", b"context\ta 0 0\n")?;
    show(rt, "a word less", b"context a 0\n")?;
    show(rt, "a word more", b"context a 0 0 0\n")
}

/// Lines: words that are missing, and lines before any context.
fn print_more_lines(rt: &impl Print) -> io::Result<()> {
    show(
        rt,
        "a constrain without operation",
        b"context a 0 0\nconstrain\n",
    )?;
    show(
        rt,
        "a vector without operation",
        b"context a 0 0\nvector a a\n",
    )?;
    show(
        rt,
        "a grant without operation",
        b"context a 0 0\ngrant 1 a a\n",
    )?;
    show(
        rt,
        "a property without set",
        b"context a 0 0\nproperty 1 domain\n",
    )?;
    show(
        rt,
        "a property of three sets",
        b"context a 0 0\nproperty 1 integrity a a a\n",
    )?;
    show(rt, "a constrain first", b"constrain read\n")?;
    show(rt, "a vector first", b"vector a a read\n")?;
    show(rt, "a grant first", b"grant 1 a a read\n")?;
    show(rt, "a property first", b"property 1 domain a\n")?;
    show(rt, "a short vector first", b"vector a\n")
}

/// Lines: their order.
fn print_order(rt: &impl Print) -> io::Result<()> {
    show(
        rt,
        "a context after constrain",
        b"context a 0 0\nconstrain read\ncontext b 0 0\n",
    )?;
    show(
        rt,
        "a context after vector",
        b"context a 0 0\nvector a a read\ncontext b 0 0\n",
    )?;
    show(
        rt,
        "a context after grant",
        b"context a 0 0\ngrant 1 a a read\ncontext b 0 0\n",
    )?;
    show(
        rt,
        "a context after property",
        b"context a 0 0\nproperty 1 domain a\ncontext b 0 0\n",
    )?;
    show(
        rt,
        "a constrain after vector",
        b"context a 0 0\nvector a a read\nconstrain read\n",
    )?;
    show(
        rt,
        "a constrain after grant",
        b"context a 0 0\ngrant 1 a a read\nconstrain read\n",
    )?;
    show(
        rt,
        "a constrain after property",
        b"context a 0 0\nproperty 1 domain a\nconstrain read\n",
    )?;
    show(
        rt,
        "a misplaced and unfit context",
        b"context a 0 0\nconstrain read\ncontext 1 0 0\n",
    )?;
    show(
        rt,
        "two constrains",
        b"context a 0 0\nconstrain read\nconstrain write\n",
    )?;
    show(
        rt,
        "a vector after a property",
        b"context a 0 0\nproperty 1 domain a\nvector a a read\n",
    )
}

/// Words: names.
fn print_names(rt: &impl Print) -> io::Result<()> {
    show(rt, "a digit first", b"context 1a 0 0\n")?;
    show(rt, "an underscore first", b"context _a 0 0\n")?;
    show(rt, "a capital", b"context aB 0 0\n")?;
    show(rt, "a hyphen", b"context a-b 0 0\n")?;
    show(rt, "a byte 0", b"context a\0 0 0\n")?;
    show(rt, "a byte 255", b"context a\xff 0 0\n")?;
    show(rt, "an empty name", b"context  0 0\n")?;
    show(rt, "a name of 16 bytes", b"context abcdefghijklm_89 0 0\n")?;
    show(rt, "a name of 17 bytes", b"context abcdefghijklm_890 0 0\n")?;
    show(rt, "a name again", b"context a 0 0\ncontext a 0 0\n")?;
    show(
        rt,
        "a name again with an unfit level",
        b"context a 0 0\ncontext a x 0\n",
    )
}

/// Words: levels and owners.
fn print_labels(rt: &impl Print) -> io::Result<()> {
    show(rt, "the highest labels", b"context a 15 15\n")?;
    show(rt, "a level of 16", b"context a 16 0\n")?;
    show(rt, "an owner of 16", b"context a 0 16\n")?;
    show(rt, "an unfit level and owner", b"context a x x\n")?;
    show(rt, "a level 00", b"context a 00 0\n")?;
    show(rt, "a level 01", b"context a 01 0\n")?;
    show(rt, "a level -1", b"context a -1 0\n")?;
    show(rt, "an empty level", b"context a  0\n")?;
    show(rt, "an empty owner", b"context a 0 \n")?;
    show(rt, "a level of 999", b"context a 999 0\n")?;
    show(rt, "a carriage return", b"context a 0 0\r\n")
}

/// Words: operations.
fn print_operations(rt: &impl Print) -> io::Result<()> {
    show(
        rt,
        "every operation",
        b"context a 0 0\ncontext b 0 0\nvector a b read write append update execute become stat lock unlock signal send receive\n",
    )?;
    show(
        rt,
        "an operation twice",
        b"context a 0 0\ncontext b 0 0\nvector a b read read\n",
    )?;
    show(
        rt,
        "an unknown operation",
        b"context a 0 0\ncontext b 0 0\nconstrain reads\n",
    )?;
    show(
        rt,
        "an unknown second operation",
        b"context a 0 0\ncontext b 0 0\nconstrain read fly\n",
    )?;
    show(
        rt,
        "an empty operation",
        b"context a 0 0\ncontext b 0 0\nconstrain \n",
    )?;
    show(
        rt,
        "a doubled space between operations",
        b"context a 0 0\ncontext b 0 0\nvector a b read  write\n",
    )?;
    show(
        rt,
        "an operation in capitals",
        b"context a 0 0\ncontext b 0 0\nvector a b READ\n",
    )
}

/// Words: the contexts of a vector.
fn print_vectors(rt: &impl Print) -> io::Result<()> {
    show(
        rt,
        "an unknown subject",
        b"context a 0 0\ncontext b 0 0\nvector c b read\n",
    )?;
    show(
        rt,
        "an unknown target",
        b"context a 0 0\ncontext b 0 0\nvector a c read\n",
    )?;
    show(
        rt,
        "an unfit subject",
        b"context a 0 0\ncontext b 0 0\nvector A b read\n",
    )?;
    show(
        rt,
        "an unfit target",
        b"context a 0 0\ncontext b 0 0\nvector a B read\n",
    )?;
    show(
        rt,
        "an unknown subject and an unfit target",
        b"context a 0 0\ncontext b 0 0\nvector c B fly\n",
    )?;
    show(
        rt,
        "an empty subject",
        b"context a 0 0\ncontext b 0 0\nvector  b read\n",
    )?;
    show(
        rt,
        "operations are added",
        b"context a 0 0\ncontext b 0 0\nvector a b read\nvector a b write\n",
    )
}

/// Words: numbers and sets of a grant.
fn print_sets(rt: &impl Print) -> io::Result<()> {
    show(
        rt,
        "a number 01",
        b"context a 0 0\ncontext b 0 0\ngrant 01 a b read\n",
    )?;
    show(
        rt,
        "a number of 1000",
        b"context a 0 0\ncontext b 0 0\ngrant 1000 a b read\n",
    )?;
    show(
        rt,
        "a number x",
        b"context a 0 0\ncontext b 0 0\ngrant x a b read\n",
    )?;
    show(
        rt,
        "a set of two",
        b"context a 0 0\ncontext b 0 0\ngrant 1 a,b b read\n",
    )?;
    show(
        rt,
        "a name twice in a set",
        b"context a 0 0\ncontext b 0 0\ngrant 1 a,a b read\n",
    )?;
    show(
        rt,
        "an empty set",
        b"context a 0 0\ncontext b 0 0\ngrant 1  b read\n",
    )?;
    show(
        rt,
        "a comma behind",
        b"context a 0 0\ncontext b 0 0\ngrant 1 a, b read\n",
    )?;
    show(
        rt,
        "a doubled comma",
        b"context a 0 0\ncontext b 0 0\ngrant 1 a,,b b read\n",
    )?;
    show(
        rt,
        "an unknown name in a set",
        b"context a 0 0\ncontext b 0 0\ngrant 1 a,c b read\n",
    )?;
    show(
        rt,
        "an unknown name before an unfit one",
        b"context a 0 0\ncontext b 0 0\ngrant 1 c,1 b read\n",
    )?;
    show(
        rt,
        "an unknown name in the second set",
        b"context a 0 0\ncontext b 0 0\ngrant 1 a b,c read\n",
    )?;
    show(
        rt,
        "an unknown set before an unknown operation",
        b"context a 0 0\ncontext b 0 0\ngrant 1 c b fly\n",
    )?;
    show(
        rt,
        "an unknown operation of a grant",
        b"context a 0 0\ncontext b 0 0\ngrant 1 a b fly\n",
    )
}

/// Words: templates and sets of a property.
fn print_properties(rt: &impl Print) -> io::Result<()> {
    show(
        rt,
        "an unknown template",
        b"context a 0 0\ncontext b 0 0\nproperty 1 secrecy a b\n",
    )?;
    show(
        rt,
        "a template in capitals",
        b"context a 0 0\ncontext b 0 0\nproperty 1 Integrity a b\n",
    )?;
    show(
        rt,
        "each template",
        b"context a 0 0\ncontext b 0 0\nproperty 1 integrity a b\nproperty 2 confidentiality a b\nproperty 3 domain a,b\nproperty 4 consistency b a\n",
    )?;
    show(
        rt,
        "an unknown first set",
        b"context a 0 0\ncontext b 0 0\nproperty 1 integrity c b\n",
    )?;
    show(
        rt,
        "an unfit second set",
        b"context a 0 0\ncontext b 0 0\nproperty 1 integrity a 1\n",
    )?;
    show(
        rt,
        "an empty second word",
        b"context a 0 0\ncontext b 0 0\nproperty 1 domain a \n",
    )
}

/// Calls: what the sheet refuses.
fn print_calls(rt: &impl Print) -> io::Result<()> {
    show(
        rt,
        "grant 0",
        b"context a 0 0\ncontext b 0 0\ngrant 0 a b read\n",
    )?;
    show(
        rt,
        "grant 32",
        b"context a 0 0\ncontext b 0 0\ngrant 32 a b read\n",
    )?;
    show(
        rt,
        "grant 33",
        b"context a 0 0\ncontext b 0 0\ngrant 33 a b read\n",
    )?;
    show(
        rt,
        "grant 999",
        b"context a 0 0\ncontext b 0 0\ngrant 999 a b read\n",
    )?;
    show(
        rt,
        "a grant again",
        b"context a 0 0\ncontext b 0 0\ngrant 1 a b read\ngrant 1 b a read\n",
    )?;
    show(
        rt,
        "property 0",
        b"context a 0 0\ncontext b 0 0\nproperty 0 domain a\n",
    )?;
    show(
        rt,
        "property 64",
        b"context a 0 0\ncontext b 0 0\nproperty 64 domain a\n",
    )?;
    show(
        rt,
        "property 65",
        b"context a 0 0\ncontext b 0 0\nproperty 65 domain a\n",
    )?;
    show(
        rt,
        "a property again",
        b"context a 0 0\ncontext b 0 0\nproperty 1 domain a\nproperty 1 domain b\n",
    )?;
    show(
        rt,
        "a domain of two sets",
        b"context a 0 0\ncontext b 0 0\nproperty 1 domain a b\n",
    )?;
    show(
        rt,
        "an integrity of one set",
        b"context a 0 0\ncontext b 0 0\nproperty 1 integrity a\n",
    )?;
    show(
        rt,
        "a consistency of one set",
        b"context a 0 0\ncontext b 0 0\nproperty 1 consistency a\n",
    )?;
    show(
        rt,
        "a shared context",
        b"context a 0 0\ncontext b 0 0\nproperty 1 confidentiality a a,b\n",
    )?;
    show(
        rt,
        "grant 0 of an unknown context",
        b"context a 0 0\ncontext b 0 0\ngrant 0 c b read\n",
    )?;
    show(
        rt,
        "grant 0 without operation",
        b"context a 0 0\ncontext b 0 0\ngrant 0 a b\n",
    )
}
