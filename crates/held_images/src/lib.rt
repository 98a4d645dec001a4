// Images read into the bytes of a record and its words, and written of them; the restart.

#![tactic(auto)]

ghost use Rattle.std.specs.Prelude.{◌≡◌, length};
ghost use Rattle.words.specs.Answer.{number_of};
ghost use Rattle.words.specs.Refusal.{answer_of, status};
ghost use Rattle.image_reader.specs.Reader.{memory_after, mapped};
ghost use Rattle.image_writer.specs.Writer.{output_after};
ghost use Rattle.held_runs.specs.Opened.{replaced};
ghost use Rattle.held_images.specs.Images.{image_read, machine_read, image_written, restart_of};

use fresh::{empty_layout, fresh};
use image_reader::read;
use image_writer::write;
use snapshot_reader::{form_number, record_or_empty};
use snapshot_writer::put_record;
use soundness::sound;
use words::refusal::Refusal;

// Reads an image into the bytes of a record, whatever they hold, and its words. Refused, both are as they were.
pub fn read_held(image: &[u8], bytes: &mut [u8], words: &mut [u32]) -> Result<(), Refusal>
    ensures number { status result ≡ number_of (image_read image.now bytes.old words.old) }
    ensures bytes { bytes.new ≡ replaced bytes.old (machine_read (image_read image.now bytes.old words.old)) }
    ensures words { words.new ≡ memory_after words.old (image_read image.now bytes.old words.old) }
{
    if bytes.len() < 1079 {
        return Err(Refusal::OutputTooShort);
    }
    let mut m = fresh(empty_layout());
    read(image, &mut m, words)?;
    put_record(m, bytes);
    Ok(())
}

// Writes the image of the record that bytes hold, and gives its length. Refused, the output is as it was.
pub fn write_held(bytes: &[u8], words: &[u32], output: &mut [u8]) -> Result<usize, Refusal>
    ensures value { answer_of result ≡ mapped length (image_written bytes.now words.now output.old) }
    ensures output { output.new ≡ output_after output.old (image_written bytes.now words.now output.old) }
{
    form_number(bytes)?;
    let m = record_or_empty(bytes);
    write(m, words, output)
}

// Makes the record that bytes hold the fresh machine of its layout. Refused, they are as they were.
pub fn restart_held(bytes: &mut [u8]) -> Result<(), Refusal>
    ensures number { status result ≡ number_of (restart_of bytes.old) }
    ensures bytes { bytes.new ≡ replaced bytes.old (restart_of bytes.old) }
{
    form_number(bytes)?;
    let m = record_or_empty(bytes);
    if !sound(m) {
        return Err(Refusal::NotSound);
    }
    let machine = fresh(m.layout);
    put_record(machine, bytes);
    Ok(())
}
