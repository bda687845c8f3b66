//! What the program says of itself.

pub(crate) const HELP: &str = "jffs_volume COMMAND [OPTION] FILE .. [--sector-size BYTES]

Looks into the volume in FILE, and changes what is there:
  format FILE SECTORS SECTOR_SIZE   makes FILE, which must not be there: an empty volume
  ls [-l] FILE [PATH]               the names in a directory: 'd NAME', or 'f SIZE NAME'; with -l
                                    'd SIZE LIVE NAME' and 'f SIZE LIVE NAME', in bytes
  cat FILE PATH                     the bytes of a file, to standard output
  put FILE PATH                     the bytes of standard input into a file
  mkdir FILE PATH                   makes a directory
  mv FILE PATH PATH                 gives a file or directory another name, which must be free
  rm FILE PATH                      removes a file or an empty directory
  rm -r FILE PATH                   removes a directory with all below it, the deepest first
  save FILE DIRECTORY               all of the volume into a directory of the host
  save --from-damaged FILE DIRECTORY
                                    the same; and of a volume that is refused what can be had
  load FILE DIRECTORY               all of a directory of the host into the volume's root
  df FILE                           how full the volume is
  map [--svg] FILE                  what each sector holds; with --svg as a picture, in SVG
  check FILE                        whether there is a volume, and whether it is clean
  serve FILE                        mounts the volume once, and answers the requests of standard
                                    input on standard output, until its end or 'unmount'

A volume has 6 to 64 SECTORS of 1024, 2048, 4096, 8192 or 16384 bytes. A PATH begins with a slash
and has at most 8 names of 1 to 20 bytes; a file has at most 1048576 bytes. The size of a sector is
found from the file if only one size makes a volume of it; else --sector-size says it. A FILE whose
name begins with '-' is given as ./-NAME.
What only looks, and save, never open FILE for writing.
LIVE is what the live records of a file or directory take on the flash.

Each change is in FILE before the command ends, and the volume is unmounted. A put writes the file
'.put.new' beside PATH, then removes what stands at PATH and renames the new file: if power fails,
one of both is there, whole. A put without room for all of it is refused before it begins; df tells
below which weight there is room. rm -r and load are many changes: where one stops, by a fault or a
loss of power, what was removed is removed, and what was loaded is there. A load looks at all names
of DIRECTORY first, and replaces files as put does. A save makes DIRECTORY, and writes over no file.
With --from-damaged what is missing is said on standard error, and what has lost its place in the
tree stands in DIRECTORY/lost+found-of-the-volume; if the file may have sectors of several sizes,
--sector-size has to say which.

  jffs_volume format notes.img 6 1024
  echo hello | jffs_volume put notes.img /greeting
  jffs_volume cat notes.img /greeting
  jffs_volume ls -l notes.img
  jffs_volume save notes.img copy
  jffs_volume load notes.img copy
  jffs_volume rm -r notes.img /old
  jffs_volume map --svg notes.img > notes.svg

Status: 0; 1 after a fault of memory, a stream or the file; 2 after a wrong call, or where FILE or
what is on the host can't be used; 3 where FILE is no volume; 4 where the file system refused. A
line on standard error says why, and of rm -r, save and load at which path. docs/TOOLS.md has more.
";

pub(crate) const VERSION: &str = "jffs_volume 0.1.0\n";
