ghost use Rattle.std.specs.Prelude.{◌≡◌, ◌++◌, OnOk, string_bytes};
ghost use Rattle.mt_gen.specs.Schedule.{line, load, click, serve, deliver};

use mt_tree::NoMemory;

/// Appends the line by which a client loads the page.
pub fn write_load(client: u32, into: &mut String) -> Result<(), NoMemory>
    ensures { OnOk result (string_bytes into.new ≡ string_bytes into.old ++ line (load client)) }
{
    writeln!(into, "load {client} /hop/main")?;
    Ok(())
}

/// Appends the line of a click on the button.
pub fn write_click(client: u32, into: &mut String) -> Result<(), NoMemory>
    ensures { OnOk result (string_bytes into.new ≡ string_bytes into.old ++ line (click client)) }
{
    writeln!(into, "click {client} #b")?;
    Ok(())
}

/// Appends the line by which a client's message is served.
pub fn write_serve(client: u32, message: u32, into: &mut String) -> Result<(), NoMemory>
    ensures { OnOk result (string_bytes into.new ≡ string_bytes into.old ++ line (serve client message)) }
{
    writeln!(into, "serve {client}.{message}")?;
    Ok(())
}

/// Appends the line by which the reply to a client's message is delivered.
pub fn write_deliver(client: u32, message: u32, into: &mut String) -> Result<(), NoMemory>
    ensures { OnOk result (string_bytes into.new ≡ string_bytes into.old ++ line (deliver client message)) }
{
    writeln!(into, "deliver {client}.{message}")?;
    Ok(())
}
